//! The words that lines begin with.

ghost use Rattle.sig_script.specs.LineWords.{line_words, word_text};

use sig_json::Listed;

/// The first word of a line, which says what the line is.
#[derive(Clone, Copy, PartialEq, Eq)]
pub(crate) enum LineWord {
    /// It is another time.
    Time,
    /// A client makes a stream.
    Create,
    /// A client changes a part of a stream's configuration.
    Patch,
    /// A client replaces a stream's configuration.
    Put,
    /// A client deletes a stream.
    Delete,
    /// A client sets a stream's status.
    Status,
    /// The operator sets a stream's status.
    Operator,
    /// A client adds a subject to a stream.
    Add,
    /// A client removes a subject from a stream.
    Remove,
    /// A client asks for a verification.
    Verify,
    /// The operator says what happened to a subject.
    Publish,
    /// A client asks for tokens.
    Poll,
    /// A round of pushes is handed tokens.
    Hand,
    /// A message reaches the receiver.
    Deliver,
    /// An answer reaches the transmitter.
    Answer,
    /// The receiver is asked about a subject.
    Check,
    /// A node's disk stands still while a line is played.
    Stop,
    /// A node is loaded again.
    Crash,
}

impl Listed for LineWord {
    ghost use Rattle.sig_script.specs.declared.line_word.LineWord.TheVariants.{Time};

    ghost values = { line_words };

    ghost text_of = { word_text };

    ghost otherwise = { Time };

    #[tactic(auto, unfolding(crate::specs::LineWords::line_words))]
    fn values() -> &'static [LineWord] {
        &[
            LineWord::Time,
            LineWord::Create,
            LineWord::Patch,
            LineWord::Put,
            LineWord::Delete,
            LineWord::Status,
            LineWord::Operator,
            LineWord::Add,
            LineWord::Remove,
            LineWord::Verify,
            LineWord::Publish,
            LineWord::Poll,
            LineWord::Hand,
            LineWord::Deliver,
            LineWord::Answer,
            LineWord::Check,
            LineWord::Stop,
            LineWord::Crash,
        ]
    }

    #[tactic(auto, unfolding(crate::specs::LineWords::word_text))]
    fn as_str(&self) -> &'static str {
        match self {
            LineWord::Time => "time",
            LineWord::Create => "create",
            LineWord::Patch => "patch",
            LineWord::Put => "put",
            LineWord::Delete => "delete",
            LineWord::Status => "status",
            LineWord::Operator => "operator",
            LineWord::Add => "add",
            LineWord::Remove => "remove",
            LineWord::Verify => "verify",
            LineWord::Publish => "publish",
            LineWord::Poll => "poll",
            LineWord::Hand => "hand",
            LineWord::Deliver => "deliver",
            LineWord::Answer => "answer",
            LineWord::Check => "check",
            LineWord::Stop => "stop",
            LineWord::Crash => "crash",
        }
    }
}
