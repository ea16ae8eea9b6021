//! Laws over the definitions: each function's contract is the law, and nothing calls it.

ghost use Rattle.sig_rxend.specs.Laws.{LeavesSides};

/// A receiver's link asks the side beside it nothing: it dials no further link, and is told no time.
pub fn links_leave_sides()
    ensures { LeavesSides }
{}
