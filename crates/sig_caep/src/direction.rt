ghost use Rattle.sig_caep.specs.Lists.{directions, direction_text};

use sig_json::{Listed, Same};

/// How an assurance level changed (CAEP 1.0, section 3.4).
#[derive(Clone, Copy, PartialEq, Eq)]
pub enum Direction {
    /// The level rose.
    Increase,
    /// The level fell.
    Decrease,
}

impl Listed for Direction {
    ghost use Rattle.sig_caep.specs.declared.direction.Direction.TheVariants.{Increase};

    ghost values = { directions };

    ghost text_of = { direction_text };

    ghost otherwise = { Increase };

    #[tactic(auto, unfolding(crate::specs::Lists::directions))]
    fn values() -> &'static [Direction] {
        &[Direction::Increase, Direction::Decrease]
    }

    #[tactic(auto, unfolding(crate::specs::Lists::direction_text))]
    fn as_str(&self) -> &'static str {
        match self {
            Direction::Increase => "increase",
            Direction::Decrease => "decrease",
        }
    }
}

impl Same for Direction {
    fn same(&self, other: &Direction) -> bool {
        self == other
    }
}
