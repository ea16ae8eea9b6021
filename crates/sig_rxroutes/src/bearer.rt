//! Who shows a bearer (RFC 6750, section 2.1). Bearers are compared byte for byte.

ghost use Rattle.std.specs.Prelude.{◌≡◌, IfOk};
ghost use Rattle.sig_rxroutes.specs.Calls as spec;

use sig_json::{Memory, Text};
use sig_rxnode::Principal;
use std::alloc::Global;

/// The issuer for whom the bearer that is shown may speak: that of the first principal with it, and none where none is
/// shown or no principal has it. Out of memory is its only error.
pub fn issuer_by(
    alloc: Global,
    principals: &[Principal],
    shown: &Option<Text>,
) -> Result<Option<Text>, Memory>
    ensures { IfOk result (λ iss. iss ≡ spec.issuer_by principals.now shown.now) }
{
    match principals
        .iter()
        .find(|principal| shows(shown, &principal.bearer))
    {
        Some(principal) => Ok(Some(principal.iss.copy(alloc)?)),
        None => Ok(None),
    }
}

/// Whether the bearer that is shown, where there is one, is this one.
pub fn shows(shown: &Option<Text>, bearer: &Text) -> bool
    ensures { result ≡ spec.shows shown.now bearer.now }
{
    match shown {
        Some(shown) => shown.as_str() == bearer.as_str(),
        None => false,
    }
}
