//! The bytes of a source, up to a limit.

ghost use Rattle.std.specs.Prelude.{◌≡◌, ◌≤◌, ◌<◌, ◌+◌, ◌^◌, length, take, IfErr, IfOk, IfSome, OnOk};
ghost use Rattle.sig_outside.specs.Held.{IsPiece};
ghost use Rattle.sig_opening.specs.Reading.{Halts};

use sig_json::MemoryRefusal;
use sig_json::limits::GATHERED_BYTES;
use sig_outside::Source;
use std::alloc::Global;

/// Why the bytes of a source weren't read.
#[derive(Clone, Copy, Debug, PartialEq, Eq)]
pub enum ReadFault {
    /// The source failed, and counted it.
    Failed,
    /// Out of memory.
    Memory,
}

impl<R: MemoryRefusal> From<R> for ReadFault {
    ghost use Rattle.sig_opening.specs.declared.reading.ReadFault.TheVariants.{Memory};

    ghost from_gives = { λ _ e. e ≡ Memory };

    fn from(_refusal: R) -> ReadFault {
        ReadFault::Memory
    }
}

/// All bytes that a source has left; of more than this limit, so many and one more.
pub fn whole_of<S: Source>(
    alloc: Global,
    source: &mut S,
    limit: usize,
) -> Result<Vec<u8>, ReadFault>
    requires { limit < 2 ^ 62 }
    ensures bytes { IfOk result (λ bytes. IfSome (S.left source.old) (λ all. bytes.items ≡ take (limit + 1) all)) }
    ensures halts { IfErr result (λ e. Halts e (S.faults source.old) (S.faults source.new)) }
    ensures steady { OnOk result (S.faults source.new ≡ S.faults source.old) }
{
    let mut bytes = Vec::new(alloc);
    'pieces: while bytes.len() <= limit {
        let ask = (limit + 1 - bytes.len()).min(GATHERED_BYTES);
        if take_piece(&mut bytes, ask, source)? == 0 {
            return Ok(bytes);
        }
    }
    Ok(bytes)
}

// Takes one piece of at most so many bytes after what stands.
fn take_piece<S: Source>(
    bytes: &mut Vec<u8>,
    ask: usize,
    source: &mut S,
) -> Result<usize, ReadFault>
    requires room { length bytes.old.items + ask < 2 ^ 64 }
    requires some { 0 < ask }
    ensures piece { IfOk result (λ n. IsPiece n ask bytes.old.items bytes.new.items (S.left source.old) (S.left source.new)) }
    ensures halts { IfErr result (λ e. Halts e (S.faults source.old) (S.faults source.new)) }
    ensures steady { OnOk result (S.faults source.new ≡ S.faults source.old) }
{
    let old = bytes.len();
    bytes.resize(old + ask, 0)?;
    let room = &mut bytes.as_mut_slice()[old..];
    let taken = source.take(room);
    bytes.truncate(old + taken.unwrap_or(0));
    match taken {
        Ok(count) => Ok(count),
        Err(_) => Err(ReadFault::Failed),
    }
}
