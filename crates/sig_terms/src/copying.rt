//! Copies of parts that several terms have, and of terms that come in several kinds.

ghost use Rattle.std.specs.Prelude.{◌≡◌, IfOk};

use sig_json::{Copied, Items, Memory, copy_items, copy_optional};
use std::alloc::Global;

/// Equal items in the same order, where there is a list.
pub fn copy_optional_items<T: Copied + Drop>(
    alloc: Global,
    optional: &Option<Items<T>>,
) -> Result<Option<Items<T>>, Memory>
    ensures { IfOk result (λ c. c ≡ optional.now) }
{
    match optional {
        None => Ok(None),
        Some(items) => Ok(Some(copy_items(alloc, items)?)),
    }
}

// The parts of a kind are copied by one call, so that little is alive where memory ends.

// An equal value.
pub(crate) fn copy_one<A: Copied>(alloc: Global, one: &A) -> Result<A, Memory>
    ensures { IfOk result (λ c. c ≡ one.now) }
{
    one.copied(alloc)
}

// Equal values of both.
pub(crate) fn copy_two<A: Copied + Drop, B: Copied + Drop>(
    alloc: Global,
    one: &A,
    two: &B,
) -> Result<(A, B), Memory>
    ensures { IfOk result (λ c. c ≡ (one.now, two.now)) }
{
    let one = one.copied(alloc)?;
    Ok((one, two.copied(alloc)?))
}

// Equal values of all three.
pub(crate) fn copy_three<A: Copied + Drop, B: Copied + Drop, C: Copied + Drop>(
    alloc: Global,
    one: &A,
    two: &B,
    three: &C,
) -> Result<(A, B, C), Memory>
    ensures { IfOk result (λ c. c ≡ (one.now, two.now, three.now)) }
{
    let (one, two) = copy_two(alloc, one, two)?;
    Ok((one, two, three.copied(alloc)?))
}

// Equal values of the first, and of the second where it is there.
pub(crate) fn copy_one_with<A: Copied + Drop, B: Copied + Drop>(
    alloc: Global,
    one: &A,
    last: &Option<B>,
) -> Result<(A, Option<B>), Memory>
    ensures { IfOk result (λ c. c ≡ (one.now, last.now)) }
{
    let one = one.copied(alloc)?;
    Ok((one, copy_optional(alloc, last)?))
}

// Equal values of the first two, and of the third where it is there.
pub(crate) fn copy_two_with<A: Copied + Drop, B: Copied + Drop, C: Copied + Drop>(
    alloc: Global,
    one: &A,
    two: &B,
    last: &Option<C>,
) -> Result<(A, B, Option<C>), Memory>
    ensures { IfOk result (λ c. c ≡ (one.now, two.now, last.now)) }
{
    let (one, two) = copy_two(alloc, one, two)?;
    Ok((one, two, copy_optional(alloc, last)?))
}

// An equal value of an enum: of the kinds before the first semicolon that have no members, of those before the second whose
// members are all `Copy`, and of those after it, each with the function that copies its members, but for those that are
// `Copy`, which stand behind `plain`.
macro_rules! copy_variant {
    ($value:expr, $alloc:ident, $type:ident {
        $($unit:ident),*;
        $($bare:ident { $($field:ident),* }),*;
        $($variant:ident: $way:ident($($member:ident),*) $(plain($($plain:ident),*))?),* $(,)?
    }) => {
        match $value {
            $($type::$unit => Ok($type::$unit),)*
            $($type::$bare { $($field),* } => Ok($type::$bare { $($field: *$field),* }),)*
            $($type::$variant { $($member,)* $($($plain,)*)? } => {
                let ($($member),*) = $way($alloc, $($member),*)?;
                Ok($type::$variant { $($member,)* $($($plain: *$plain,)*)? })
            })*
        }
    };
}

pub(crate) use copy_variant;
