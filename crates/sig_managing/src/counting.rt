//! How many changes there were.

ghost use Rattle.std.specs.Prelude.{◌≡◌, ◌++◌, List, [], IfSome};
ghost use Rattle.std.specs.Option.{option_copied, option_to_list};
ghost use Rattle.std.specs.Prelude.{option_and_then};
ghost use Rattle.sig_managing.specs.Lines as spec;
ghost use Rattle.sig_managing.specs.declared.counts.Change.{Change};

use crate::{Change, Counts};
use sig_manager::Step;

/// What a step changes once it is answered; asking for a status changes nothing.
pub fn change_of(step: &Step) -> Option<Change>
    ensures { result ≡ spec.change_of step.now }
{
    match step {
        Step::Status { .. } => None,
        Step::Delete { .. } => Some(Change::Deleted),
        Step::Replace { .. } => Some(Change::Replaced),
        Step::Create { .. } => Some(Change::Created),
        Step::SetStatus { .. } => Some(Change::StatusSet),
    }
}

/// No changes.
pub fn none() -> Counts
    ensures { result ≡ spec.counts_of [] }
{
    Counts {
        created: 0,
        replaced: 0,
        deleted: 0,
        status: 0,
    }
}

/// One change more, where there is one.
pub fn counted_on(counts: Counts, change: Option<Change>) -> Counts
    ensures { (changes : List Change) → counts ≡ spec.counts_of changes → result ≡ spec.counts_of (changes ++ option_to_list change) }
{
    match change {
        None => counts,
        Some(Change::Created) => Counts {
            created: counts.created.saturating_add(1),
            ..counts
        },
        Some(Change::Replaced) => Counts {
            replaced: counts.replaced.saturating_add(1),
            ..counts
        },
        Some(Change::Deleted) => Counts {
            deleted: counts.deleted.saturating_add(1),
            ..counts
        },
        Some(Change::StatusSet) => Counts {
            status: counts.status.saturating_add(1),
            ..counts
        },
    }
}
