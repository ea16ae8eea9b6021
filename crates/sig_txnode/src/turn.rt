ghost use Rattle.std.specs.Prelude.{◌≡◌, ◌↔◌, IfOk, IsTrue};

use sig_journal::NodeFault;
use sig_json::{Copied, Memory, Same};
use sig_logs::LinkTurn;
use sig_terms::{Answer, Call};
use std::alloc::Global;

/// A call that a node was asked, and its answer.
#[derive(Drop)]
pub struct Turn {
    /// The number of the link that asked it.
    pub link: u32,
    /// The call.
    pub call: Call,
    /// When, in seconds since 1970, at most 2^62.
    pub now: u64,
    /// The answer.
    pub result: Result<Answer, NodeFault>,
}

impl Turn {
    /// An equal turn.
    pub fn copy(&self, alloc: Global) -> Result<Turn, Memory>
        ensures { IfOk result (λ t. t ≡ self.entry.now) }
    {
        let result = copy_result(alloc, &self.result)?;
        Ok(Turn {
            link: self.link,
            call: self.call.copy(alloc)?,
            now: self.now,
            result,
        })
    }
}

// An equal result.
fn copy_result(
    alloc: Global,
    given: &Result<Answer, NodeFault>,
) -> Result<Result<Answer, NodeFault>, Memory>
    ensures { IfOk result (λ r. r ≡ given.now) }
{
    match given {
        Ok(answer) => Ok(Ok(answer.copy(alloc)?)),
        Err(fault) => Ok(Err(*fault)),
    }
}

impl Copied for Turn {
    fn copied(&self, alloc: Global) -> Result<Turn, Memory> {
        self.copy(alloc)
    }
}

// Whether both are one result.
fn same_results(one: &Result<Answer, NodeFault>, two: &Result<Answer, NodeFault>) -> bool
    ensures { IsTrue result ↔ (one.now ≡ two.now) }
{
    match (one, two) {
        (Ok(answer), Ok(other)) => answer.same(other),
        (Err(fault), Err(other)) => fault.same(other),
        _ => false,
    }
}

impl Same for Turn {
    fn same(&self, other: &Turn) -> bool {
        self.link == other.link
            && self.now == other.now
            && self.call.same(&other.call)
            && same_results(&self.result, &other.result)
    }
}

impl LinkTurn for Turn {
    ghost link_of = { λ t. t.link };

    fn link(&self) -> u32 {
        self.link
    }
}
