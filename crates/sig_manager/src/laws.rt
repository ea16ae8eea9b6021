//! Laws over definitions: each is the contract of a function that does nothing.

ghost use Rattle.sig_manager.specs.Laws.{EachStepFalls, ListBounds, ReplacedWantsAreReadBack, WantsAreReadBack};

/// Each answered step leaves fewer requests that may be made.
pub fn each_step_falls()
    ensures { EachStepFalls }
{}

/// Once the streams are listed at most two requests are made for each status that is asked and each stream that is created, and
/// one for each that is deleted or replaced.
pub fn lists_bound_requests()
    ensures { ListBounds }
{}

/// A want that was read of something is read back of the object that is written of it.
pub fn wants_are_read_back()
    ensures { WantsAreReadBack }
{}

/// Nor does the name of the stream change what is read back.
pub fn replaced_wants_are_read_back()
    ensures { ReplacedWantsAreReadBack }
{}
