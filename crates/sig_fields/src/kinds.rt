ghost use Rattle.std.specs.Prelude.{◌≡◌, ◌++◌, OnOk};
ghost use Rattle.sig_fields.specs.Kinds as kinds;
ghost use Rattle.sig_fields.specs.Reading.{Takes};

use crate::{Field, PartFault, Reading};
use sig_json::{Bytes, Items, Memory, Text};
use std::alloc::Global;
use std::marker::PhantomData;

// So many counts can be spelled.
const COUNTS: usize = 4_294_967_296;

/// Adds a number last, in eight bytes.
pub fn put_number(out: &mut Vec<u8>, number: u64) -> Result<(), Memory>
    ensures { OnOk result (out.new.items ≡ out.old.items ++ kinds.number_bytes number) }
{
    out.extend_from_slice(&number.to_be_bytes())?;
    Ok(())
}

/// Adds a count last, in four bytes: what is left of it by 2^32, where it is 2^32 or more.
pub fn put_count(out: &mut Vec<u8>, count: usize) -> Result<(), Memory>
    ensures { OnOk result (out.new.items ≡ out.old.items ++ kinds.count_bytes count) }
{
    let low = (count % COUNTS) as u32;
    out.extend_from_slice(&low.to_be_bytes())?;
    Ok(())
}

/// Adds a count and so many bytes last. A text is spelled so.
pub fn put_sized(out: &mut Vec<u8>, bytes: &[u8]) -> Result<(), Memory>
    ensures { OnOk result (out.new.items ≡ out.old.items ++ kinds.text_bytes bytes.now) }
{
    put_count(out, bytes.len())?;
    out.extend_from_slice(bytes)?;
    Ok(())
}

/// A number, in eight bytes.
pub struct NumberField;

impl Field for NumberField {
    type Value = u64;

    ghost spelled = { kinds.number_bytes };

    ghost read = { kinds.number };

    fn put(_alloc: Global, value: &u64, out: &mut Vec<u8>) -> Result<(), Memory> {
        put_number(out, *value)
    }

    fn take(_alloc: Global, bytes: &mut Reading<'_>) -> Result<u64, PartFault> {
        bytes.take_number()
    }
}

/// A text, as a count and so many bytes of UTF-8.
pub struct TextField;

impl Field for TextField {
    type Value = Text;

    ghost spelled = { kinds.text_bytes };

    ghost read = { kinds.text };

    fn put(_alloc: Global, value: &Text, out: &mut Vec<u8>) -> Result<(), Memory> {
        put_sized(out, value.as_str().as_bytes())
    }

    fn take(alloc: Global, bytes: &mut Reading<'_>) -> Result<Text, PartFault> {
        let text = bytes.take_str()?;
        Ok(Text::of(alloc, text)?)
    }
}

/// Bytes, as a count and so many.
pub struct BytesField;

impl Field for BytesField {
    type Value = Bytes;

    ghost spelled = { kinds.text_bytes };

    ghost read = { kinds.sized };

    fn put(_alloc: Global, value: &Bytes, out: &mut Vec<u8>) -> Result<(), Memory> {
        put_sized(out, value.as_slice())
    }

    fn take(alloc: Global, bytes: &mut Reading<'_>) -> Result<Bytes, PartFault> {
        let taken = bytes.take_sized()?;
        Ok(Bytes::of(alloc, taken)?)
    }
}

/// Yes or no, as 01 or 00.
pub struct FlagField;

impl Field for FlagField {
    type Value = bool;

    ghost spelled = { kinds.flag_bytes };

    ghost read = { kinds.flag };

    fn put(_alloc: Global, value: &bool, out: &mut Vec<u8>) -> Result<(), Memory> {
        out.push(if *value { 1 } else { 0 })?;
        Ok(())
    }

    fn take(_alloc: Global, bytes: &mut Reading<'_>) -> Result<bool, PartFault> {
        let begun = bytes.rest();
        let byte = bytes.take_byte()?;
        bytes.accept(begun, flag_in(byte))
    }
}

fn flag_in(byte: u8) -> Option<bool>
    ensures { result ≡ kinds.flag_in byte }
{
    match byte {
        0 => Some(false),
        1 => Some(true),
        _ => None,
    }
}

/// What may be there: a flag and, after 01, the field.
pub struct Maybe<F> {
    field: PhantomData<F>,
}

impl<F: Field> Field for Maybe<F> {
    type Value = Option<F::Value>;

    ghost spelled = { kinds.maybe_bytes F.spelled };

    ghost read = { kinds.maybe F.read };

    fn put(alloc: Global, value: &Option<F::Value>, out: &mut Vec<u8>) -> Result<(), Memory> {
        FlagField::put(alloc, &value.is_some(), out)?;
        match value {
            Some(value) => F::put(alloc, value, out),
            None => Ok(()),
        }
    }

    fn take(alloc: Global, bytes: &mut Reading<'_>) -> Result<Option<F::Value>, PartFault> {
        if FlagField::take(alloc, bytes)? {
            return Ok(Some(F::take(alloc, bytes)?));
        }
        Ok(None)
    }
}

/// A list, as a count and so many fields.
pub struct ListOf<F> {
    field: PhantomData<F>,
}

impl<F: Field> Field for ListOf<F> {
    type Value = Items<F::Value>;

    ghost spelled = { kinds.list_bytes F.spelled };

    ghost read = { kinds.list F.read };

    fn put(alloc: Global, value: &Items<F::Value>, out: &mut Vec<u8>) -> Result<(), Memory> {
        let items = value.as_slice();
        put_count(out, items.len())?;
        for item in items {
            F::put(alloc, item, out)?;
        }
        Ok(())
    }

    fn take(alloc: Global, bytes: &mut Reading<'_>) -> Result<Items<F::Value>, PartFault> {
        let count = bytes.take_count()?;
        take_items::<F>(alloc, bytes, count)
    }
}

// So many items.
fn take_items<F: Field>(
    alloc: Global,
    bytes: &mut Reading<'_>,
    count: u32,
) -> Result<Items<F::Value>, PartFault>
    ensures { Takes (kinds.items F.read count bytes.old) result bytes.new }
{
    let mut items = Vec::new(alloc);
    for _ in 0..count {
        let item = F::take(alloc, bytes)?;
        items.push(item)?;
    }
    Ok(Items::of(items))
}
