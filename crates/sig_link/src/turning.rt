//! What comes of a request that was read, and what follows it.

ghost use Rattle.std.specs.Prelude.{◌≡◌, ◌⊎◌, ◌++◌, ◌<◌, IfOk, OnErr, OnOk, is_err, vec_capacity, vec_len};
ghost use Rattle.sig_link.specs.Course.{Comes, Continues, own_turn};
ghost use Rattle.sig_link.specs.Work.{HasRoom, SameBeside};

use crate::End;
use crate::course::Course;
use crate::work::Work;
use sig_http::{HttpRefusal, Request};
use sig_json::Memory;
use sig_links::Side;
use std::sync::Wait;

// What comes of a request: the routes refuse it, or it makes a turn. There is room for one.
pub fn course_of<E: End, R: Wait, S: Side>(
    rt: &R,
    taker: &mut E::Taker,
    rules: &E::Rules,
    side: &mut S,
    work: &mut Work<E::Turn>,
    request: &Request,
) -> Result<Course<E::Turn>, Memory>
    ensures comes { IfOk result (λ course. Comes E.meaning rules.now work.old.link request.now course
        (S.view side.old) (S.view side.new)) }
    ensures told { IfOk result (λ course.
        E.meaning.Grew (E.told taker.old) (E.told taker.new) (own_turn course)) }
    ensures room { OnOk result (HasRoom work.new) }
    ensures memory { OnErr result (E.told taker.new ≡ E.told taker.old) }
    ensures tries { OnErr result ((S.view side.new ≡ S.view side.old)
        ⊎ E.meaning.Tries (S.view side.old) (S.view side.new)) }
    ensures turns { work.new.turns.items ≡ work.old.turns.items }
    ensures beside { SameBeside work.old work.new }
{
    work.turns.reserve(1)?;
    match E::call_of(work.alloc, request, rules) {
        Ok(call) => match E::turn(rt, taker, side, work.link, call) {
            Ok(turn) => Ok(Course::Turned(turn)),
            Err(Memory) => Err(Memory),
        },
        Err(HttpRefusal::Memory) => Err(Memory),
        Err(refusal) => Ok(Course::Refused(refusal)),
    }
}

// Keeps the turn of a request last, where it made one.
pub fn keep<T: Drop>(work: &mut Work<T>, course: Course<T>)
    requires { HasRoom work.old }
    ensures turns { work.new.turns.items ≡ work.old.turns.items ++ own_turn course }
    ensures beside { SameBeside work.old work.new }
{
    match course {
        Course::Refused(_) => {}
        Course::Turned(turn) => work.turns.push_reserved(turn),
    }
}

// Keeps the turn of a request whose response was written whole, and does what follows it, where it made one.
pub fn follow<E: End, R: Wait, S: Side>(
    rt: &R,
    taker: &mut E::Taker,
    rules: &E::Rules,
    side: &mut S,
    work: &mut Work<E::Turn>,
    course: Course<E::Turn>,
) -> Result<(), Memory>
    requires { HasRoom work.old }
    ensures follows { Continues E.meaning rules.now course (is_err result)
        work.old.turns.items work.new.turns.items (E.told taker.old) (E.told taker.new)
        (S.view side.old) (S.view side.new) }
    ensures beside { SameBeside work.old work.new }
{
    match course {
        Course::Refused(_) => Ok(()),
        Course::Turned(turn) => {
            E::follow(work.alloc, rt, taker, rules, side, turn, &mut work.turns)
        }
    }
}
