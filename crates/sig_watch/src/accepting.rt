//! Links are accepted as places are free, and each is served in a thread of its own.

ghost use Rattle.std.specs.Prelude.{◌≡◌, ◌≢◌, ◌⊎◌, ◌≤◌, ◌<◌, ◌+◌, ◌++◌, ◌∷◌, All, [], IfSome, IsTrue, Some, false, length, map};
ghost use Rattle.std.specs.Thread.{IsSync};
ghost use Rattle.sig_json.specs.declared.limits.TheConstants.{LINKS_AT_ONCE};
ghost use Rattle.sig_watch.specs.declared.limits.TheConstants.{LINKS_PER_WATCH};
ghost use Rattle.sig_watch.specs.Happening.{moment, open_link};
ghost use Rattle.sig_watch.specs.Passing.{HaltsSo, LetsIn, Passes, PassesUntil};

use crate::Host;
use crate::course::Course;
use crate::endings::Endings;
use crate::limits::LINKS_PER_WATCH;
use crate::returning::{give_back_ended, give_back_next, take_back};
use crate::running::{Gone, start};
use crate::visit::Comes;
use sig_json::limits::LINKS_AT_ONCE;
use sig_links::{Accepted, Door, Link, Side};
use sig_outside::Failed;
use sig_serving::Stop;
use std::sync::Wait;
use std::thread::{Scope, Threads};

// Serves a link that came, or an errand, under the next number.
fn take_in<'s, E, R, H, L, S, A, V>(
    scope: &Scope<'s, E>,
    rt: &'s R,
    host: &'s H,
    endings: &'s Endings,
    door: &mut A,
    course: &mut Course<H, V>,
    visit: V,
)
where
    R: Threads + Wait + Sync,
    H: Host + Sync,
    L: Link,
    S: Side<L: Send>,
    A: Door<L = L, S = S>,
    V: Comes<L, S> + Send + Drop,
    V: 's,
    H: 's,
    H::Log: 's,
    requires shared { IsSync R.row × IsSync H.row }
    requires room { (course.old.count < LINKS_PER_WATCH) × (length course.old.live.items < LINKS_AT_ONCE) }
    requires hosts { All (λ r. r.child.promise.host.value ≡ host.now) course.old.live.items }
    ensures passes { Passes (H.serves host.now) course.old.logs.items course.new.logs.items
        (moment (A.view door.old) (course.old.count + 1)
        (map (λ r. open_link r.number (V.seen_of r.child.promise.came.value)) course.old.live.items
        ++ open_link (course.old.count + 1) (V.seen_of visit) ∷ []))
        (moment (A.view door.new) course.new.count
        (map (λ r. open_link r.number (V.seen_of r.child.promise.came.value)) course.new.live.items)) }
    ensures hosts { All (λ r. r.child.promise.host.value ≡ host.now) course.new.live.items }
    ensures counts { course.new.count ≡ course.old.count + 1 }
{
    let number = course.count + 1;
    course.count = number;
    match start(scope, rt, host, endings, number, visit) {
        Ok(running) => course.live.push_reserved(running),
        Err(gone) => {
            let Gone { visit, log } = gone;
            course.logs.push_reserved(log);
            take_back::<L, S, A>(door, visit.into_guest());
        }
    }
}

// Has the host know where an accept lacked something.
fn heed<R: Wait, H: Host>(rt: &R, host: &H, lacking: bool) {
    if lacking {
        host.accept_lacked(rt);
    }
}

// Accepts the next link, for which a place is free, unless the door gives none.
fn accept_next<'s, E, R, H, L, S, A, V>(
    scope: &Scope<'s, E>,
    rt: &'s R,
    host: &'s H,
    endings: &'s Endings,
    door: &mut A,
    course: &mut Course<H, V>,
) -> Option<Stop>
where
    R: Threads + Wait + Sync,
    H: Host + Sync,
    L: Link,
    S: Side<L: Send>,
    A: Door<L = L, S = S>,
    V: Comes<L, S> + Send + Drop,
    V: 's,
    H: 's,
    H::Log: 's,
    requires shared { IsSync R.row × IsSync H.row }
    requires room { (course.old.count < LINKS_PER_WATCH) × (length course.old.live.items < LINKS_AT_ONCE) }
    requires hosts { All (λ r. r.child.promise.host.value ≡ host.now) course.old.live.items }
    ensures passes { PassesUntil (H.serves host.now) course.old.logs.items course.new.logs.items result
        (moment (A.view door.old) course.old.count
        (map (λ r. open_link r.number (V.seen_of r.child.promise.came.value)) course.old.live.items))
        (moment (A.view door.new) course.new.count
        (map (λ r. open_link r.number (V.seen_of r.child.promise.came.value)) course.new.live.items)) }
    ensures hosts { All (λ r. r.child.promise.host.value ≡ host.now) course.new.live.items }
    ensures one { (course.new.count ≡ course.old.count) ⊎ (course.new.count ≡ course.old.count + 1) }
    ensures gives { IfSome result (λ stop. stop ≢ Stop.Halted) }
{
    match door.accept() {
        Ok(Accepted::Link { link, side }) => {
            take_in(scope, rt, host, endings, door, course, V::of(link, side));
            None
        }
        Ok(Accepted::Waited { lacking }) => {
            heed(rt, host, lacking);
            None
        }
        Ok(Accepted::Shut) => Some(Stop::Shut),
        Err(Failed) => Some(Stop::Failed),
    }
}

// Begins an errand where the host wants one, for which a place is free, and says whether it did.
fn begin_errand<'s, E, R, H, L, S, A, V>(
    scope: &Scope<'s, E>,
    rt: &'s R,
    host: &'s H,
    endings: &'s Endings,
    door: &mut A,
    course: &mut Course<H, V>,
) -> bool
where
    R: Threads + Wait + Sync,
    H: Host + Sync,
    L: Link,
    S: Side<L: Send>,
    A: Door<L = L, S = S>,
    V: Comes<L, S> + Send + Drop,
    V: 's,
    H: 's,
    H::Log: 's,
    requires shared { IsSync R.row × IsSync H.row }
    requires room { (course.old.count < LINKS_PER_WATCH) × (length course.old.live.items < LINKS_AT_ONCE) }
    requires hosts { All (λ r. r.child.promise.host.value ≡ host.now) course.old.live.items }
    ensures passes { Passes (H.serves host.now) course.old.logs.items course.new.logs.items
        (moment (A.view door.old) course.old.count
        (map (λ r. open_link r.number (V.seen_of r.child.promise.came.value)) course.old.live.items))
        (moment (A.view door.new) course.new.count
        (map (λ r. open_link r.number (V.seen_of r.child.promise.came.value)) course.new.live.items)) }
    ensures hosts { All (λ r. r.child.promise.host.value ≡ host.now) course.new.live.items }
    ensures begun { IsTrue result → course.new.count ≡ course.old.count + 1 }
    ensures none { result ≡ false → course.new ≡ course.old }
{
    let mut side = door.own_side();
    if !host.wants_errand(rt, side.now()) {
        return false;
    }
    take_in(scope, rt, host, endings, door, course, V::of_errand(side));
    true
}

// Begins an errand, or accepts the next link, if the host lets it in, once a place is free; or says why none is accepted.
fn advance<'s, E, R, H, L, S, A, V>(
    scope: &Scope<'s, E>,
    rt: &'s R,
    host: &'s H,
    endings: &'s Endings,
    door: &mut A,
    course: &mut Course<H, V>,
) -> Option<Stop>
where
    R: Threads + Wait + Sync,
    H: Host + Sync,
    L: Link,
    S: Side<L: Send>,
    A: Door<L = L, S = S>,
    V: Comes<L, S> + Send + Drop,
    V: 's,
    H: 's,
    H::Log: 's,
    requires shared { IsSync R.row × IsSync H.row }
    requires hosts { All (λ r. r.child.promise.host.value ≡ host.now) course.old.live.items }
    ensures passes { PassesUntil (H.serves host.now) course.old.logs.items course.new.logs.items result
        (moment (A.view door.old) course.old.count
        (map (λ r. open_link r.number (V.seen_of r.child.promise.came.value)) course.old.live.items))
        (moment (A.view door.new) course.new.count
        (map (λ r. open_link r.number (V.seen_of r.child.promise.came.value)) course.new.live.items)) }
    ensures hosts { All (λ r. r.child.promise.host.value ≡ host.now) course.new.live.items }
    ensures lets_in { LetsIn (H.answered host.now) course.old.count course.new.count }
    ensures grows { course.old.count ≤ course.new.count }
    ensures halts { IfSome result (λ stop. HaltsSo (H.answered host.now) stop course.new.count) }
{
    if course.count as usize == LINKS_PER_WATCH {
        return Some(Stop::Spent);
    }
    if !host.lets_in(rt, course.count + 1) {
        return Some(Stop::Halted);
    }
    if course.live.len() == LINKS_AT_ONCE {
        give_back_next(rt, host, endings, door, course);
        return None;
    }
    if begin_errand(scope, rt, host, endings, door, course) {
        return None;
    }
    accept_next(scope, rt, host, endings, door, course)
}

/// Accepts the links that a door gives, and begins the errands that the host wants, as many as a watch may have, until it
/// accepts none; and says why. Those that are open then are left.
pub fn accept_all<'s, E, R, H, L, S, A, V>(
    scope: &Scope<'s, E>,
    rt: &'s R,
    host: &'s H,
    endings: &'s Endings,
    door: &mut A,
    course: &mut Course<H, V>,
) -> Stop
where
    R: Threads + Wait + Sync,
    H: Host + Sync,
    L: Link,
    S: Side<L: Send>,
    A: Door<L = L, S = S>,
    V: Comes<L, S> + Send + Drop,
    V: 's,
    H: 's,
    H::Log: 's,
    requires shared { IsSync R.row × IsSync H.row }
    requires hosts { All (λ r. r.child.promise.host.value ≡ host.now) course.old.live.items }
    ensures passes { PassesUntil (H.serves host.now) course.old.logs.items course.new.logs.items (Some result)
        (moment (A.view door.old) course.old.count
        (map (λ r. open_link r.number (V.seen_of r.child.promise.came.value)) course.old.live.items))
        (moment (A.view door.new) course.new.count
        (map (λ r. open_link r.number (V.seen_of r.child.promise.came.value)) course.new.live.items)) }
    ensures hosts { All (λ r. r.child.promise.host.value ≡ host.now) course.new.live.items }
    ensures lets_in { LetsIn (H.answered host.now) course.old.count course.new.count }
    ensures halts { HaltsSo (H.answered host.now) result course.new.count }
{
    for _ in rt.forever() {
        give_back_ended(rt, host, endings, door, course);
        if let Some(stop) = advance(scope, rt, host, endings, door, course) {
            return stop;
        }
    }
    unreachable!()
}
