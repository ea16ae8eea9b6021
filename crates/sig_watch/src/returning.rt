//! Links that have ended go back to their door.

ghost use Rattle.std.specs.Prelude.{◌≡◌, ◌<◌, ◌+◌, All, [], length, map, vec_len};
ghost use Rattle.sig_watch.specs.Happening.{moment, open_link};
ghost use Rattle.sig_serving.specs.Line.{seen};
ghost use Rattle.sig_watch.specs.Passing.{Passes};
ghost use Rattle.sig_watch.specs.Returning.{IsBack};
ghost use Rattle.sig_watch.specs.Sights.{IfErrand, guest};

use crate::course::Course;
use crate::endings::Endings;
use crate::running::{Gone, finish};
use crate::visit::Comes;
use crate::{Guest, Host};
use sig_json::limits::LINKS_AT_ONCE;
use sig_links::{Door, Link, Side};
use std::sync::Wait;
use std::thread::Threads;

// Waits for the link at this place to end, gives it back, and keeps its log.
fn give_back<R, H, L, S, A, V>(rt: &R, host: &H, door: &mut A, course: &mut Course<H, V>, at: usize)
where
    R: Threads,
    H: Host,
    L: Link,
    S: Side<L: Send>,
    A: Door<L = L, S = S>,
    V: Comes<L, S> + Send + Drop,
    requires here { at < length course.old.live.items }
    requires hosts { All (λ r. r.child.promise.host.value ≡ host.now) course.old.live.items }
    ensures passes { Passes (H.serves host.now) course.old.logs.items course.new.logs.items
        (moment (A.view door.old) course.old.count
        (map (λ r. open_link r.number (V.seen_of r.child.promise.came.value)) course.old.live.items))
        (moment (A.view door.new) course.new.count
        (map (λ r. open_link r.number (V.seen_of r.child.promise.came.value)) course.new.live.items)) }
    ensures hosts { All (λ r. r.child.promise.host.value ≡ host.now) course.new.live.items }
    ensures one_less { (length course.new.live.items + 1 ≡ length course.old.live.items) × (course.new.count ≡ course.old.count) }
{
    let running = course.live.remove(at);
    let Gone { visit, log } = finish(rt, running);
    course.logs.push_reserved(log);
    take_back::<L, S, A>(door, visit.into_guest());
}

/// A link goes back to its door; an errand has come from none.
pub fn take_back<L, S, A>(door: &mut A, gone: Guest<L, S>)
where
    L: Link,
    S: Side<L: Send>,
    A: Door<L = L, S = S>,
    ensures { IfErrand (guest (seen L.left L.written L.Source.faults L.Sink.faults) S.view gone).is_errand (A.view door.new ≡ A.view door.old)
        (IsBack (guest (seen L.left L.written L.Source.faults L.Sink.faults) S.view gone) (A.view door.old) (A.view door.new)) }
{
    match gone {
        Guest::Link { link, side } => door.back(link, side),
        Guest::Errand { side: _ } => {}
    }
}

/// Gives back the links that have ended, without waiting for one that has not.
pub fn give_back_ended<R, H, L, S, A, V>(
    rt: &R,
    host: &H,
    endings: &Endings,
    door: &mut A,
    course: &mut Course<H, V>,
)
where
    R: Threads + Wait,
    H: Host,
    L: Link,
    S: Side<L: Send>,
    A: Door<L = L, S = S>,
    V: Comes<L, S> + Send + Drop,
    requires hosts { All (λ r. r.child.promise.host.value ≡ host.now) course.old.live.items }
    ensures passes { Passes (H.serves host.now) course.old.logs.items course.new.logs.items
        (moment (A.view door.old) course.old.count
        (map (λ r. open_link r.number (V.seen_of r.child.promise.came.value)) course.old.live.items))
        (moment (A.view door.new) course.new.count
        (map (λ r. open_link r.number (V.seen_of r.child.promise.came.value)) course.new.live.items)) }
    ensures hosts { All (λ r. r.child.promise.host.value ≡ host.now) course.new.live.items }
    ensures same { course.new.count ≡ course.old.count }
{
    for _ in 0..LINKS_AT_ONCE {
        let Some(number) = endings.next(rt) else {
            return;
        };
        give_back_numbered(rt, host, door, course, number);
    }
}

// Gives back the link of this number, if it is open.
fn give_back_numbered<R, H, L, S, A, V>(
    rt: &R,
    host: &H,
    door: &mut A,
    course: &mut Course<H, V>,
    number: u32,
)
where
    R: Threads,
    H: Host,
    L: Link,
    S: Side<L: Send>,
    A: Door<L = L, S = S>,
    V: Comes<L, S> + Send + Drop,
    requires hosts { All (λ r. r.child.promise.host.value ≡ host.now) course.old.live.items }
    ensures passes { Passes (H.serves host.now) course.old.logs.items course.new.logs.items
        (moment (A.view door.old) course.old.count
        (map (λ r. open_link r.number (V.seen_of r.child.promise.came.value)) course.old.live.items))
        (moment (A.view door.new) course.new.count
        (map (λ r. open_link r.number (V.seen_of r.child.promise.came.value)) course.new.live.items)) }
    ensures hosts { All (λ r. r.child.promise.host.value ≡ host.now) course.new.live.items }
    ensures same { course.new.count ≡ course.old.count }
{
    if let Some(at) = course.place_of(number) {
        give_back(rt, host, door, course, at);
    }
}

/// Waits until one of the links has ended, and gives one back.
pub fn give_back_next<R, H, L, S, A, V>(
    rt: &R,
    host: &H,
    endings: &Endings,
    door: &mut A,
    course: &mut Course<H, V>,
)
where
    R: Threads + Wait,
    H: Host,
    L: Link,
    S: Side<L: Send>,
    A: Door<L = L, S = S>,
    V: Comes<L, S> + Send + Drop,
    requires some { 0 < length course.old.live.items }
    requires hosts { All (λ r. r.child.promise.host.value ≡ host.now) course.old.live.items }
    ensures passes { Passes (H.serves host.now) course.old.logs.items course.new.logs.items
        (moment (A.view door.old) course.old.count
        (map (λ r. open_link r.number (V.seen_of r.child.promise.came.value)) course.old.live.items))
        (moment (A.view door.new) course.new.count
        (map (λ r. open_link r.number (V.seen_of r.child.promise.came.value)) course.new.live.items)) }
    ensures hosts { All (λ r. r.child.promise.host.value ≡ host.now) course.new.live.items }
    ensures one_less { (length course.new.live.items + 1 ≡ length course.old.live.items) × (course.new.count ≡ course.old.count) }
{
    let number = endings.wait(rt);
    // Every link that is open tells its number once, so it is there; and else any serves to go on.
    let at = course.place_or_first(number);
    give_back(rt, host, door, course, at);
}

/// Waits until all links have ended, and gives them back.
pub fn give_all_back<R, H, L, S, A, V>(
    rt: &R,
    host: &H,
    endings: &Endings,
    door: &mut A,
    course: &mut Course<H, V>,
)
where
    R: Threads + Wait,
    H: Host,
    L: Link,
    S: Side<L: Send>,
    A: Door<L = L, S = S>,
    V: Comes<L, S> + Send + Drop,
    requires hosts { All (λ r. r.child.promise.host.value ≡ host.now) course.old.live.items }
    ensures passes { Passes (H.serves host.now) course.old.logs.items course.new.logs.items
        (moment (A.view door.old) course.old.count
        (map (λ r. open_link r.number (V.seen_of r.child.promise.came.value)) course.old.live.items))
        (moment (A.view door.new) course.new.count []) }
    ensures same { course.new.count ≡ course.old.count }
    ensures all { vec_len course.new.logs ≡ course.new.count }
{
    while course.is_open() {
        give_back_next(rt, host, endings, door, course);
    }
}
