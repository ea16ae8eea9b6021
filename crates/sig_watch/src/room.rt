ghost use Rattle.std.specs.Prelude.{◌≡◌, []};

use crate::course::Course;
use crate::endings::Endings;
use crate::{Guest, Host};
use sig_json::Memory;
use sig_json::limits::LINKS_AT_ONCE;
use sig_links::{Link, Side};
use std::alloc::Global;

/// Room for the links of a watch: for as many logs as it may have, and for as many links as may be open at once.
#[derive(Drop)]
pub struct Room<H: Host, L: Link + Drop, S: Side + Drop> {
    pub(crate) course: Course<H, Guest<L, S>>,
    pub(crate) endings: Endings,
    ghost empty: { (course.count ≡ 0) × (course.live.items ≡ []) × (course.logs.items ≡ []) },
}

impl<H: Host, L: Link + Drop, S: Side + Drop> Room<H, L, S> {
    /// Takes the room. Out of memory is its only error.
    pub fn new(alloc: Global) -> Result<Room<H, L, S>, Memory> {
        let course = Course::new(alloc)?;
        let endings = Endings::new(Vec::with_capacity(alloc, LINKS_AT_ONCE)?);
        Ok(Room { course, endings })
    }
}
