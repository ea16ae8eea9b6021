//! Telling a line, which changes nothing that is told.

ghost use Rattle.std.specs.Prelude.{◌≡◌};

use crate::{LinkCause, link_ended};
use sig_json::{Memory, Text};
use sig_links::Side;
use sig_serving::LinkEnd;
use std::alloc::Global;

/// Has a side tell a line about this topic, where there is a line.
pub fn tell<S: Side>(side: &mut S, topic: Option<&str>, line: Result<Text, Memory>)
    ensures view { S.view side.new ≡ S.view side.old }
    ensures out { S.out side.new ≡ S.out side.old }
{
    if let Ok(line) = line {
        side.note(topic, line.as_str());
    }
}

/// Has a side tell by which fault a link ended, where it ended by one.
pub fn tell_end<S: Side>(alloc: Global, side: &mut S, end: LinkEnd)
    ensures view { S.view side.new ≡ S.view side.old }
    ensures out { S.out side.new ≡ S.out side.old }
{
    if let Some(cause) = LinkCause::of(end) {
        tell(side, Some(cause.as_str()), link_ended(alloc, cause));
    }
}
