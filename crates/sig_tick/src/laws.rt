//! Laws over the definitions: each function's contract is the law, and nothing calls it.

ghost use Rattle.sig_tick.specs.Laws.{LateHaveCauses};

/// In a tick that goes on, an attempt is late only where an outcome kept a token, the side's count rose, a link gave no
/// response, or a token's endpoint is `https` without a gateway, or it has none.
pub fn late_attempts_have_causes()
    ensures { LateHaveCauses }
{}
