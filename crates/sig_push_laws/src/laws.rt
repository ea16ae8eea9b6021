//! Laws over the definitions: each function's contract is the law, and nothing calls it.

ghost use Rattle.sig_push_laws.specs.Heads.{WantedHeadsFit, WantedPushesAreReadBack, WantedPushesAreSafe, WantedPushesAreShort};

/// The host and the path of an endpoint that is wanted have visible ASCII alone, its port is from 1 to 65,535, its path begins
/// with a slash and has no `#`, and its authorization has visible ASCII and spaces alone (RFC 9110, sections 5.5 and 7.1; RFC
/// 9112, section 3.2).
pub fn wanted_pushes_are_safe()
    ensures { WantedPushesAreSafe }
{}

/// The URL of a push endpoint that is wanted has at most 2,048 bytes, and its authorization at most 8,192.
pub fn wanted_pushes_are_short()
    ensures { WantedPushesAreShort }
{}

/// The head of a push to an endpoint that is wanted has at most 16,384 bytes, as many as a head may have here.
pub fn wanted_heads_fit()
    ensures { WantedHeadsFit }
{}

/// A push to an endpoint that is wanted is read back with the endpoint's path and query and with the authorization that was
/// wanted, whatever bytes follow it: nothing that a receiver wants adds a field or a request. That holds where the path doesn't
/// end with its first `?`.
pub fn wanted_pushes_are_read_back()
    ensures { WantedPushesAreReadBack }
{}
