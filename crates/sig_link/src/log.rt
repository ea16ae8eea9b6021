ghost use Rattle.std.specs.Prelude.{◌≡◌, IfOk};

use sig_json::{Copied, Items, Memory, copy_items};
use sig_logs::{LinkTurn, Logged};
use sig_serving::LinkEnd;
use std::alloc::Global;

/// What a link came to.
#[derive(Drop)]
pub struct LinkLog<T> {
    /// The number of the link.
    pub link: u32,
    /// The turns that its requests made, and those that followed them, in order.
    pub turns: Items<T>,
    /// Why it is served no more.
    pub end: LinkEnd,
}

impl<T: Copied + Drop> LinkLog<T> {
    /// An equal log. Out of memory is its only error.
    pub fn copy(&self, alloc: Global) -> Result<LinkLog<T>, Memory>
        ensures { IfOk result (λ l. l ≡ self.now) }
    {
        Ok(LinkLog {
            link: self.link,
            turns: copy_items(alloc, &self.turns)?,
            end: self.end,
        })
    }
}

impl<T: LinkTurn> Logged for LinkLog<T> {
    type Turn = T;

    ghost number_of = { λ l. l.link };

    ghost turns_of = { λ l. l.turns };

    fn number(&self) -> u32 {
        self.link
    }

    fn turns(&self) -> &[T] {
        self.turns.as_slice()
    }
}
