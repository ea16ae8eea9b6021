use crate::Turn;
use sig_journal::NodeFault;
use sig_terms::Answer;

/// What a call came to.
#[derive(Drop)]
pub struct Taken {
    /// The answer.
    pub result: Result<Answer, NodeFault>,
    /// The turn that was kept: none exactly where memory ran out. The node itself doesn't have it any more.
    pub turn: Option<Turn>,
}
