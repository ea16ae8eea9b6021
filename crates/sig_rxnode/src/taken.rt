use crate::{RxAnswer, RxFault, RxTurn};

/// What a call came to.
#[derive(Drop)]
pub struct RxTaken {
    /// The answer.
    pub result: Result<RxAnswer, RxFault>,
    /// The turn that was kept: none exactly where memory ran out. The node itself doesn't have it any more.
    pub turn: Option<RxTurn>,
}
