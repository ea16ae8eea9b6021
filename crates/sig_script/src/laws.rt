//! Laws over definitions: each is the contract of a function that does nothing.

ghost use Rattle.sig_script.specs.Laws.{LinesAreProper};

/// Each call of a line that is read is proper and tells the transmitter no answer, and each time is at most 2^62.
pub fn lines_are_proper()
    ensures { LinesAreProper }
{
    sig_stream::laws::read_publications_are_proper();
    sig_bounds::laws::wants_are_proper();
}
