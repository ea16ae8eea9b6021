//! The turns of a log and those of its link, one beside the other.

ghost use Rattle.std.specs.Prelude.{◌≡◌, ◌≢◌, ◌↔◌, ◌≤◌, ◌-◌, IsTrue, MatchOption, Some, slice_get};
ghost use Rattle.sig_logs.specs.Logs.{of_link};

use crate::LinkTurn;
use sig_json::Same;

/// The first place, counted from 1, at which the turns of a log and the node's turns of its link aren't the same, if any.
pub fn place_of<T: LinkTurn>(logged: &[T], turns: &[T], link: u32) -> Option<u64>
    ensures { MatchOption result (logged.now ≡ of_link T.link_of link turns.now)
        (λ place. (1 ≤ place) × (slice_get logged.now (place - 1) ≢ slice_get (of_link T.link_of link turns.now) (place - 1))) }
{
    let mut place = 0;
    for i in 0..turns.len() {
        let turn = &turns[i];
        if turn.link() == link {
            if !stands_at(logged, place, turn) {
                return Some(place as u64 + 1);
            }
            place += 1;
        }
    }
    if place < logged.len() {
        return Some(place as u64 + 1);
    }
    None
}

// Whether this turn stands at this place, counted from 0.
fn stands_at<T: Same>(logged: &[T], place: usize, turn: &T) -> bool
    ensures { IsTrue result ↔ (slice_get logged.now place ≡ Some turn.now) }
{
    match logged.get(place) {
        Some(found) => found.same(turn),
        None => false,
    }
}
