ghost use Rattle.std.specs.Prelude.{◌≡◌, length, option_map};
ghost use Rattle.std.specs.Int.{from_be_bytes, w32, w64};
ghost use Rattle.sig_json.specs.Answers.{result_map};
ghost use Rattle.sig_fields.specs.Kinds as kinds;
ghost use Rattle.sig_fields.specs.Reading.{Takes, where_begun};

use crate::PartFault;
use std::marker::Model;
use std::str::from_utf8;

/// Bytes that are read part by part. Contracts see what is left of them. A call that refuses a part leaves them at that
/// part's first byte.
#[derive(Drop)]
pub struct Reading<'a> {
    rest: &'a [u8],
}

impl<'a> Model for Reading<'a> {
    ghost use Rattle.std.specs.Prelude.{ℕ, List};

    ghost Value = { List ℕ };

    ghost view = { λ r. r.rest.now };
}

impl<'a> Reading<'a> {
    /// These bytes, from the first on.
    pub fn new(bytes: &'a [u8]) -> Reading<'a>
        ensures { result ≡ bytes.now }
    {
        Reading { rest: bytes }
    }

    /// How many bytes are left.
    pub fn left(&self) -> usize
        ensures { result ≡ length self.now }
    {
        self.rest.len()
    }

    /// One byte.
    pub fn take_byte(&mut self) -> Result<u8, PartFault>
        ensures { Takes (kinds.byte self.old) result self.new }
    {
        match self.rest {
            [] => Err(PartFault::Bad),
            [byte, rest @ ..] => {
                self.rest = rest;
                Ok(*byte)
            }
        }
    }

    /// A number in eight bytes.
    pub fn take_number(&mut self) -> Result<u64, PartFault>
        ensures { Takes (kinds.number self.old) result self.new }
    {
        if self.rest.len() < 8 {
            return Err(PartFault::Bad);
        }
        let (number, rest) = self.rest.split_at(8);
        self.rest = rest;
        Ok(number_in_8(number))
    }

    /// A number in eight bytes, of which this is the greatest.
    pub fn take_up_to(&mut self, most: u64) -> Result<u64, PartFault>
        ensures { Takes (kinds.number_up_to most self.old) result self.new }
    {
        let begun = self.rest;
        let number = self.take_number()?;
        self.accept(begun, if number <= most { Some(number) } else { None })
    }

    /// A count, in four bytes.
    pub fn take_count(&mut self) -> Result<u32, PartFault>
        ensures { Takes (kinds.count self.old) result self.new }
    {
        if self.rest.len() < 4 {
            return Err(PartFault::Bad);
        }
        let (count, rest) = self.rest.split_at(4);
        self.rest = rest;
        Ok(number_in_4(count))
    }

    /// A count and so many bytes, which are one part.
    pub fn take_sized(&mut self) -> Result<&'a [u8], PartFault>
        ensures { Takes (kinds.sized self.old) (result_map (λ t. t.now) result) self.new }
    {
        if self.rest.len() < 4 {
            return Err(PartFault::Bad);
        }
        let (count, after) = self.rest.split_at(4);
        let size = number_in_4(count) as usize;
        if after.len() < size {
            return Err(PartFault::Bad);
        }
        let (bytes, rest) = after.split_at(size);
        self.rest = rest;
        Ok(bytes)
    }

    /// A text in UTF-8, which isn't copied.
    pub fn take_str(&mut self) -> Result<&'a str, PartFault>
        ensures { Takes (kinds.text self.old) (result_map (λ t. t.now) result) self.new }
    {
        let begun = self.rest;
        let bytes = self.take_sized()?;
        match utf8_in(bytes) {
            Some(text) => Ok(text),
            None => {
                self.rest = begun;
                Err(PartFault::Bad)
            }
        }
    }

    /// What a part was read as. Where it broke its rule it is refused, and the bytes are those that it began.
    pub fn accept<T>(&mut self, begun: &'a [u8], read: Option<T>) -> Result<T, PartFault>
        ensures { Takes (where_begun begun.now self.old read) result self.new }
    {
        match read {
            Some(value) => Ok(value),
            None => {
                self.rest = begun;
                Err(PartFault::Bad)
            }
        }
    }

    /// What is left of the bytes.
    pub fn rest(&self) -> &'a [u8]
        ensures { result.now ≡ self.now }
    {
        self.rest
    }
}

// The number in four bytes.
fn number_in_4(bytes: &[u8]) -> u32
    requires { length bytes.now ≡ 4 }
    ensures { result ≡ from_be_bytes w32 bytes.now }
{
    match bytes {
        [a, b, c, d] => u32::from_be_bytes([*a, *b, *c, *d]),
        _ => 0,
    }
}

// The number in eight bytes.
fn number_in_8(bytes: &[u8]) -> u64
    requires { length bytes.now ≡ 8 }
    ensures { result ≡ from_be_bytes w64 bytes.now }
{
    match bytes {
        [a, b, c, d, e, f, g, h] => u64::from_be_bytes([*a, *b, *c, *d, *e, *f, *g, *h]),
        _ => 0,
    }
}

// The text that bytes are, where they are UTF-8.
fn utf8_in(bytes: &[u8]) -> Option<&str>
    ensures { option_map (λ t. t.now) result ≡ kinds.utf8_in bytes.now }
{
    match from_utf8(bytes) {
        Ok(text) => Some(text),
        Err(_) => None,
    }
}
