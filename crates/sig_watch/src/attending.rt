//! A whole watch of a door.

ghost use Rattle.std.specs.Prelude.{◌≡◌, ◌≤◌, [], length, vec_len};
ghost use Rattle.sig_watch.specs.declared.limits.TheConstants.{LINKS_PER_WATCH};
ghost use Rattle.std.specs.Thread.{IsSync};
ghost use Rattle.sig_watch.specs.Attending.{Attends};
ghost use Rattle.sig_watch.specs.Passing.{HaltsSo, LetsIn};

use crate::accepting::accept_all;
use crate::course::Course;
use crate::endings::Endings;
use crate::returning::give_all_back;
use crate::visit::Comes;
use crate::{Host, Room};
use sig_json::Items;
use sig_links::{Door, Link, Side};
use sig_serving::Stop;
use std::sync::Wait;
use std::thread;
use std::thread::{Scope, Threads};

/// What a watch of a door came to.
#[derive(Drop)]
pub struct Attended<G> {
    /// Why no further link was accepted.
    pub stop: Stop,
    /// What each link came to, in the order in which they went back.
    pub logs: Items<G>,
}

/// Has the host serve the links that a door gives, each in a thread of its own from when it is accepted, under a number from
/// 1 on in order of acceptance: at most `LINKS_PER_WATCH`, and `LINKS_AT_ONCE` of them open at any time. Where that many are
/// open it waits until one has ended before it accepts the next; where the system makes no thread, it serves the link itself
/// before that. The host is asked before each. After the door is shut or has failed, or the host lets none in, it accepts
/// none.
///
/// Each link ends in its thread, and goes back to the door with its side once it has: while links are accepted, as soon as
/// an accept returns.
///
/// It takes no memory of its own, and may wait for the door and for the links.
pub fn attend<R: Threads + Wait + Sync, H: Host + Sync, A: Door>(
    rt: &R,
    host: &H,
    door: &mut A,
    room: Room<H, A::L, A::S>,
) -> Attended<H::Log>
    ensures attends { Attends (H.serves host.now) result.stop result.logs (A.view door.old) (A.view door.new) }
    ensures few { length result.logs ≤ LINKS_PER_WATCH }
    ensures lets_in { LetsIn (H.answered host.now) 0 (length result.logs) }
    ensures halts { HaltsSo (H.answered host.now) result.stop (length result.logs) }
{
    let Room { course, endings } = room;
    let mut course = course;
    let stop = serve_in_scope(rt, host, &endings, door, &mut course);
    Attended {
        stop,
        logs: Items::of(course.into_logs()),
    }
}

// Serves the links that a door gives in a scope.
fn serve_in_scope<R, H, L, S, A, V>(
    rt: &R,
    host: &H,
    endings: &Endings,
    door: &mut A,
    course: &mut Course<H, V>,
) -> Stop
where
    R: Threads + Wait + Sync,
    H: Host + Sync,
    L: Link,
    S: Side<L: Send>,
    A: Door<L = L, S = S>,
    V: Comes<L, S> + Send + Drop,
    requires none { (course.old.count ≡ 0) × (course.old.live.items ≡ []) × (course.old.logs.items ≡ []) }
    ensures attends { Attends (H.serves host.now) result course.new.logs.items (A.view door.old) (A.view door.new) }
    ensures lets_in { LetsIn (H.answered host.now) 0 (vec_len course.new.logs) }
    ensures halts { HaltsSo (H.answered host.now) result (vec_len course.new.logs) }
{
    let lent = in_scope(rt, host, endings, door, course);
    lent.stop
}

// A door and the course of its links, lent to a scope; and why no further link was accepted.
#[derive(Drop)]
struct Lent<'d, 'c, A, C> {
    door: &'d mut A,
    course: &'c mut C,
    stop: Stop,
}

// Serves the links that a door gives in a scope, which gives back what it was lent.
fn in_scope<'d, 'c, 'x, R, H, L, S, A, V>(
    rt: &'x R,
    host: &'x H,
    endings: &'x Endings,
    door: &'d mut A,
    course: &'c mut Course<H, V>,
) -> Lent<'d, 'c, A, Course<H, V>>
where
    R: Threads + Wait + Sync,
    H: Host + Sync,
    L: Link,
    S: Side<L: Send>,
    A: Door<L = L, S = S>,
    V: Comes<L, S> + Send + Drop,
    requires none { (course.old.count ≡ 0) × (course.old.live.items ≡ []) × (course.old.logs.items ≡ []) }
    ensures same { (result.door.ghost_name ≡ door.entry.ghost_name) × (result.course.ghost_name ≡ course.entry.ghost_name) }
    ensures attends { Attends (H.serves host.now) result.stop result.course.now.logs.items (A.view door.old) (A.view result.door.now) }
    ensures lets_in { LetsIn (H.answered host.now) 0 (vec_len result.course.now.logs) }
    ensures halts { HaltsSo (H.answered host.now) result.stop (vec_len result.course.now.logs) }
{
    thread::scope(
        thread::scope_env(),
        rt,
        move |scope| -> Lent<'_, '_, A, Course<H, V>>
            requires shared { IsSync R.row × IsSync H.row }
            requires none { (course.now.count ≡ 0) × (course.now.live.items ≡ []) × (course.now.logs.items ≡ []) }
            ensures same { (result.door.ghost_name ≡ door.entry.ghost_name) × (result.course.ghost_name ≡ course.entry.ghost_name) }
            ensures attends { Attends (H.serves host.entry.now) result.stop result.course.now.logs.items (A.view door.entry.now) (A.view result.door.now) }
            ensures lets_in { LetsIn (H.answered host.entry.now) 0 (vec_len result.course.now.logs) }
            ensures halts { HaltsSo (H.answered host.entry.now) result.stop (vec_len result.course.now.logs) }
        {
            let stop = serve_all(scope, rt, host, endings, &mut *door, &mut *course);
            Lent { door, course, stop }
        },
    )
}

// Serves the links that a door gives, and gives all back.
fn serve_all<'s, E, R, H, L, S, A, V>(
    scope: &Scope<'s, E>,
    rt: &'s R,
    host: &'s H,
    endings: &'s Endings,
    door: &mut A,
    course: &mut Course<H, V>,
) -> Stop
where
    R: Threads + Wait + Sync,
    H: Host + Sync,
    L: Link,
    S: Side<L: Send>,
    A: Door<L = L, S = S>,
    V: Comes<L, S> + Send + Drop,
    V: 's,
    H: 's,
    H::Log: 's,
    requires shared { IsSync R.row × IsSync H.row }
    requires none { (course.old.count ≡ 0) × (course.old.live.items ≡ []) × (course.old.logs.items ≡ []) }
    ensures attends { Attends (H.serves host.now) result course.new.logs.items (A.view door.old) (A.view door.new) }
    ensures lets_in { LetsIn (H.answered host.now) 0 (vec_len course.new.logs) }
    ensures halts { HaltsSo (H.answered host.now) result (vec_len course.new.logs) }
{
    let stop = accept_all(scope, rt, host, endings, door, course);
    door.hurry();
    give_all_back(rt, host, endings, door, course);
    stop
}
