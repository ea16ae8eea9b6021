//! Laws over definitions: each is the contract of a function that does nothing.

ghost use Rattle.sig_receiver.specs.Laws.{AnswersByWhatIsKept, Joins};

/// What is kept of a journal in two parts is that of the second part over what is kept of the first, whatever stood
/// before: a journal may repeat a token, and be read in any pieces.
pub fn journals_join()
    ensures { Joins }
{}

/// The answer to a token over a journal is the one over what is kept of that journal.
pub fn answers_are_by_what_is_kept()
    ensures { AnswersByWhatIsKept }
{}
