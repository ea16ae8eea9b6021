//! What the session table says of a subject.

ghost use Rattle.std.specs.Prelude.{◌≡◌, true};
ghost use Rattle.sig_sessions.specs.Candidates as candidates;
ghost use Rattle.sig_sessions.specs.Keys.{entries_from};
ghost use Rattle.sig_sessions.specs.Laws.{subjects_of};
ghost use Rattle.sig_sessions.specs.Table.{are_distinct};
ghost use Rattle.sig_sessions.specs.Verdicts as spec;

use crate::tally::{Tally, tally_of};
use crate::{Account, Device, Row, Session};
use sig_json::Same;
use sig_places::Places;
use sig_subject::Subject;

/// What the session table says of a subject.
#[derive(Clone, Copy, PartialEq, Eq)]
pub struct Verdict {
    /// Whether a row is identical to it.
    pub known: bool,
    /// That row's session; without one, revoked where a covering row's is, else live where one is.
    pub session: Session,
    /// The greatest of the covering rows' accounts: unseen, enabled, disabled, purged.
    pub account: Account,
    /// Not compliant where a covering row's device isn't, else compliant where one is.
    pub device: Device,
    /// Whether a covering row's credential has to be reset.
    pub reset: bool,
    /// Whether it may go on: its session isn't revoked, its account neither disabled nor purged, its device isn't
    /// non-compliant, and no credential has to be reset.
    pub allow: bool,
}

impl Same for Verdict {
    fn same(&self, other: &Verdict) -> bool {
        self.known == other.known
            && self.session.same(&other.session)
            && self.account.same(&other.account)
            && self.device.same(&other.device)
            && self.reset == other.reset
            && self.allow == other.allow
    }
}

/// The verdict of the rows on the subject. No two of them are of identical subjects, and the places are theirs.
pub(crate) fn verdict_of(rows: &[Row], places: &Places, subject: &Subject) -> Verdict
    requires distinct { are_distinct rows.now ≡ true }
    requires placed { places.now.entries ≡ entries_from 0 (subjects_of rows.now) }
    ensures { result ≡ spec.verdict_of rows.now subject.now }
{
    told(tally_of(rows, places, subject))
}

// The verdict by what the rows say.
fn told(tally: Tally) -> Verdict
    ensures { result ≡ candidates.verdict_told tally }
{
    let session = session_told(tally);
    let account = account_told(tally);
    let device = device_told(tally);
    Verdict {
        known: tally.known,
        session,
        account,
        device,
        reset: tally.reset,
        allow: is_allowed(session, account, device, tally.reset),
    }
}

// That of the subject's own row, else that among the rows that cover it.
fn session_told(tally: Tally) -> Session
    ensures { result ≡ candidates.session_of_tally tally }
{
    let (revoked, live) = if tally.known {
        (tally.own_revoked, tally.own_live)
    } else {
        (tally.revoked, tally.live)
    };
    if revoked {
        Session::Revoked
    } else if live {
        Session::Live
    } else {
        Session::Unseen
    }
}

// The greatest of the covering rows.
fn account_told(tally: Tally) -> Account
    ensures { result ≡ candidates.account_told tally.purged tally.disabled tally.enabled }
{
    if tally.purged {
        Account::Purged
    } else if tally.disabled {
        Account::Disabled
    } else if tally.enabled {
        Account::Enabled
    } else {
        Account::Unseen
    }
}

// Not compliant where a covering row isn't, else compliant where one is.
fn device_told(tally: Tally) -> Device
    ensures { result ≡ candidates.device_told tally.not_compliant tally.compliant }
{
    if tally.not_compliant {
        Device::NotCompliant
    } else if tally.compliant {
        Device::Compliant
    } else {
        Device::Unseen
    }
}

fn is_allowed(session: Session, account: Account, device: Device, reset: bool) -> bool
    ensures { result ≡ spec.is_allowed session account device reset }
{
    session != Session::Revoked
        && account != Account::Disabled
        && account != Account::Purged
        && device != Device::NotCompliant
        && !reset
}
