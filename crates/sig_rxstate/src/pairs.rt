//! The pairs of a snapshot, each once.

ghost use Rattle.sig_json.specs.Answers.{result_map};
ghost use Rattle.std.specs.Prelude.{[]};
ghost use Rattle.sig_fields.specs.Reading.{Takes};
ghost use Rattle.sig_inbox.specs.Pairs.{has_pair};
ghost use Rattle.sig_rxstate.specs.Lists.{with_more, with_one};
ghost use Rattle.sig_rxstate.specs.Parts as parts;
ghost use Rattle.sig_rxstate.specs.State.{read_pairs};

use crate::fields::PairField;
use sig_fields::{Field, PartFault, Reading};
use sig_inbox::{Found, Seen};
use std::alloc::Global;

/// A count and so many pairs, none of which is there already.
pub(crate) fn take_pairs(alloc: Global, bytes: &mut Reading<'_>) -> Result<Seen, PartFault>
    ensures { Takes (read_pairs bytes.old) (result_map (λ s. s.pairs) result) bytes.new }
{
    let count = bytes.take_number()?;
    take_many(alloc, bytes, count)
}

// So many pairs.
fn take_many(alloc: Global, bytes: &mut Reading<'_>, count: u64) -> Result<Seen, PartFault>
    ensures { Takes (with_more has_pair parts.pair count [] bytes.old) (result_map (λ s. s.pairs) result) bytes.new }
{
    let mut seen = Seen::new(alloc);
    for _ in 0..count {
        take_one(alloc, bytes, &mut seen)?;
    }
    Ok(seen)
}

// One more pair.
fn take_one(alloc: Global, bytes: &mut Reading<'_>, seen: &mut Seen) -> Result<(), PartFault>
    ensures { Takes (with_one has_pair parts.pair seen.old.pairs bytes.old) (result_map (λ u. seen.new.pairs) result) bytes.new }
{
    let begun = bytes.rest();
    let pair = PairField::take(alloc, bytes)?;
    let is_new = seen.add(pair)? == Found::Added;
    bytes.accept(begun, if is_new { Some(()) } else { None })
}
