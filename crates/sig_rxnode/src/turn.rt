ghost use Rattle.std.specs.Prelude.{◌≡◌, ◌↔◌, IfOk, IsTrue};

use crate::{RxAnswer, RxCall, RxFault};
use sig_json::{Copied, Memory, Same};
use sig_logs::LinkTurn;
use std::alloc::Global;

/// A call as a node took it, and its answer.
#[derive(Drop)]
pub struct RxTurn {
    /// The number of the link that made it.
    pub link: u32,
    /// The call.
    pub call: RxCall,
    /// What was answered.
    pub result: Result<RxAnswer, RxFault>,
}

impl RxTurn {
    /// An equal turn. Out of memory is its only error.
    pub fn copy(&self, alloc: Global) -> Result<RxTurn, Memory>
        ensures { IfOk result (λ t. t ≡ self.now) }
    {
        let call = self.call.copy(alloc)?;
        let result = copy_result(alloc, &self.result)?;
        Ok(RxTurn {
            link: self.link,
            call,
            result,
        })
    }
}

fn copy_result(
    alloc: Global,
    told: &Result<RxAnswer, RxFault>,
) -> Result<Result<RxAnswer, RxFault>, Memory>
    ensures { IfOk result (λ r. r ≡ told.now) }
{
    match told {
        Ok(answer) => Ok(Ok(answer.copy(alloc)?)),
        Err(fault) => Ok(Err(*fault)),
    }
}

impl Copied for RxTurn {
    fn copied(&self, alloc: Global) -> Result<RxTurn, Memory> {
        self.copy(alloc)
    }
}

impl Same for RxTurn {
    fn same(&self, other: &RxTurn) -> bool {
        self.link == other.link
            && self.call.same(&other.call)
            && same_result(&self.result, &other.result)
    }
}

fn same_result(one: &Result<RxAnswer, RxFault>, other: &Result<RxAnswer, RxFault>) -> bool
    ensures { IsTrue result ↔ (one.now ≡ other.now) }
{
    match one {
        Ok(answer) => match other {
            Ok(theirs) => answer.same(theirs),
            Err(_) => false,
        },
        Err(fault) => match other {
            Ok(_) => false,
            Err(theirs) => *fault == *theirs,
        },
    }
}

impl LinkTurn for RxTurn {
    ghost link_of = { λ t. t.link };

    fn link(&self) -> u32 {
        self.link
    }
}
