//! Laws over the definitions: each function's contract is the law, and nothing calls it.

ghost use Rattle.sig_calls.specs.Laws.{NumberComesExactly};
ghost use Rattle.sig_calls.specs.Regular.{CallsAreRegular};
ghost use Rattle.sig_calls.specs.Speaking.{AnswersAreTrue};

/// Under proper rules and over what a sound history came to, the fact of a proper call fits and is as the rules have it; its
/// answer hands out only what the stream owes after the call; and it counts as acknowledged only what the call says was taken.
pub fn calls_are_regular()
    ensures { CallsAreRegular }
{}

/// Under proper rules a call is refused for its numbers exactly where its fact would give a stream or a token one above 2^62.
pub fn number_comes_exactly()
    ensures { NumberComesExactly }
{}

/// Under proper rules and over what a sound history came to, what the answer to a proper call says of a stream's
/// configuration or status is so after the call (Shared Signals Framework 1.0, sections 8.1.1 and 8.1.2).
pub fn answers_are_true()
    ensures { AnswersAreTrue }
{}
