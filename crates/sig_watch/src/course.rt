//! The links of a watch, from when they come until they have gone back.

ghost use Rattle.std.specs.Prelude.{◌≡◌, ◌≤◌, ◌<◌, ◌+◌, [], IfOk, IfSome, IsTrue, false, length, vec_capacity, vec_len};
ghost use Rattle.sig_json.specs.declared.limits.TheConstants.{LINKS_AT_ONCE};
ghost use Rattle.sig_watch.specs.declared.limits.TheConstants.{LINKS_PER_WATCH};

use crate::Host;
use crate::limits::LINKS_PER_WATCH;
use crate::running::Running;
use crate::visit::Visitor;
use sig_json::Memory;
use sig_json::limits::LINKS_AT_ONCE;
use std::alloc::Global;

/// The links of a watch so far: how many came, those that are open, and the logs of those that went back.
#[derive(Drop)]
pub struct Course<H: Host, V: Visitor + Drop> {
    pub count: u32,
    /// In the order in which they came.
    pub live: Vec<Running<H, V>>,
    /// In the order in which they went.
    pub logs: Vec<H::Log>,
    pub ghost counted: { vec_len logs + vec_len live ≡ count },
    pub ghost few: { (vec_len live ≤ LINKS_AT_ONCE) × (count ≤ LINKS_PER_WATCH) },
    pub ghost room: { (LINKS_AT_ONCE ≤ vec_capacity live) × (LINKS_PER_WATCH ≤ vec_capacity logs) },
}

impl<H: Host, V: Visitor + Drop> Course<H, V> {
    /// None yet, with room for as many as may come and for their logs. Out of memory is its only error.
    pub fn new(alloc: Global) -> Result<Course<H, V>, Memory>
        ensures { IfOk result (λ course. (course.count ≡ 0) × (course.live.items ≡ []) × (course.logs.items ≡ [])) }
    {
        let live = Vec::with_capacity(alloc, LINKS_AT_ONCE)?;
        let logs = Vec::with_capacity(alloc, LINKS_PER_WATCH)?;
        Ok(Course {
            count: 0,
            live,
            logs,
        })
    }

    /// Where the link of this number is served, if it is open.
    pub fn place_of(&self, number: u32) -> Option<usize>
        ensures { IfSome result (λ at. at < length self.now.live.items) }
    {
        for i in 0..self.live.len() {
            if self.live[i].number == number {
                return Some(i);
            }
        }
        None
    }

    /// The same place, and that of the first link where it isn't open.
    pub fn place_or_first(&self, number: u32) -> usize
        requires { 0 < length self.now.live.items }
        ensures { result < length self.now.live.items }
    {
        self.place_of(number).unwrap_or(0)
    }

    /// The logs, once no link is open.
    pub fn into_logs(self) -> Vec<H::Log>
        ensures { result ≡ self.logs }
    {
        let Course {
            count: _,
            live: _,
            logs,
        } = self;
        logs
    }

    /// Whether a link is open.
    pub fn is_open(&self) -> bool
        ensures some { IsTrue result → 0 < length self.now.live.items }
        ensures none { result ≡ false → self.now.live.items ≡ [] }
    {
        !self.live.is_empty()
    }
}
