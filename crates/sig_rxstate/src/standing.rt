//! What is known of a row but its level, as bytes.

ghost use Rattle.std.specs.Prelude.{◌≡◌, ◌++◌, OnOk};
ghost use Rattle.sig_fields.specs.Kinds as kinds;
ghost use Rattle.sig_fields.specs.Reading.{Takes};
ghost use Rattle.sig_rxstate.specs.Parts as parts;
ghost use Rattle.sig_sessions.specs.Equality.{account_place, device_place, opt_place, session_place};

use sig_fields::{PartFault, Reading};
use sig_json::{Listed, Memory};
use sig_sessions::{Account, Device, Opt, Row, Session};

/// Adds what is known of a row last, but its level.
pub(crate) fn put_standing(row: &Row, out: &mut Vec<u8>) -> Result<(), Memory>
    ensures { OnOk result (out.new.items ≡ out.old.items ++ parts.standing_bytes row.now) }
{
    out.extend_from_slice(&[
        session_byte(row.session),
        account_byte(row.account),
        device_byte(row.device),
        flag_byte(row.reset),
        flag_byte(row.stale),
        opt_byte(row.opt),
    ])?;
    Ok(())
}

/// A value of a closed list, by its place.
pub(crate) fn take_value<T: Listed>(bytes: &mut Reading<'_>) -> Result<T, PartFault>
    ensures { Takes (parts.value_of T.values bytes.old) result bytes.new }
{
    let begun = bytes.rest();
    let byte = bytes.take_byte()?;
    bytes.accept(begun, T::values().get(byte as usize).copied())
}

fn session_byte(session: Session) -> u8
    ensures { result ≡ session_place session }
{
    match session {
        Session::Unseen => 0,
        Session::Live => 1,
        Session::Revoked => 2,
    }
}

fn account_byte(account: Account) -> u8
    ensures { result ≡ account_place account }
{
    match account {
        Account::Unseen => 0,
        Account::Enabled => 1,
        Account::Disabled => 2,
        Account::Purged => 3,
    }
}

fn device_byte(device: Device) -> u8
    ensures { result ≡ device_place device }
{
    match device {
        Device::Unseen => 0,
        Device::Compliant => 1,
        Device::NotCompliant => 2,
    }
}

fn opt_byte(opt: Opt) -> u8
    ensures { result ≡ opt_place opt }
{
    match opt {
        Opt::Unseen => 0,
        Opt::In => 1,
        Opt::Leaving => 2,
        Opt::Out => 3,
    }
}

fn flag_byte(flag: bool) -> u8
    ensures { result ≡ kinds.flag_byte flag }
{
    if flag { 1 } else { 0 }
}
