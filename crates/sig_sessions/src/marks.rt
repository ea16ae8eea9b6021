//! What a row may say of each subject that it covers.

ghost use Rattle.std.specs.Prelude.{◌≡◌};
ghost use Rattle.sig_sessions.specs.Marks as spec;

use crate::{Account, Device, Row, Session};

/// One thing that a row may say.
#[derive(Clone, Copy, PartialEq, Eq)]
pub(crate) enum Mark {
    Live,
    Revoked,
    Enabled,
    Disabled,
    Purged,
    Compliant,
    NotCompliant,
    Reset,
}

/// Whether the row says it.
pub(crate) fn has_mark(row: &Row, mark: Mark) -> bool
    ensures { result ≡ spec.has_mark mark row.now }
{
    match mark {
        Mark::Live => row.session == Session::Live,
        Mark::Revoked => row.session == Session::Revoked,
        Mark::Enabled => row.account == Account::Enabled,
        Mark::Disabled => row.account == Account::Disabled,
        Mark::Purged => row.account == Account::Purged,
        Mark::Compliant => row.device == Device::Compliant,
        Mark::NotCompliant => row.device == Device::NotCompliant,
        Mark::Reset => row.reset,
    }
}
