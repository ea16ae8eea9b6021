use sig_command::LinesEnd;

/// How a run ends. Each ending has its status and its last line of text, and comes by its cause.
#[derive(Clone, Copy, PartialEq, Eq)]
pub enum Ending {
    /// The words are no command.
    Usage,
    /// The command ended so; or the program ran out of memory before the words were known.
    Ran(LinesEnd),
}
