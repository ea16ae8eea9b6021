ghost use Rattle.std.specs.Prelude.{◌≡◌, ◌<◌, ◌≤◌, ◌+◌, ◌^◌, length, IfErr, IfOk, OnOk};
ghost use Rattle.sig_http.specs.Pieces.{Draws, Halts, IsPiece};

use crate::HttpFault;
use crate::limits::PIECE_BYTES;
use sig_json::Memory;
use sig_outside::Source;
use std::alloc::Global;
use std::marker::Model;

/// Room for one piece of a source. It is made once for a message, so that a byte which comes alone costs no more than one
/// of many.
#[derive(Drop)]
pub struct Room {
    bytes: Vec<u8>,
}

impl Model for Room {
    ghost use Rattle.std.specs.Prelude.{◌≡◌, ℕ, List, length};
    ghost use Rattle.sig_http.specs.declared.limits.TheConstants.{PIECE_BYTES};

    ghost Value = { List ℕ };

    ghost view = { λ r. r.bytes.items };

    ghost invariant = { λ r. length r.bytes.items ≡ PIECE_BYTES };
}

impl Room {
    /// Room for `PIECE_BYTES` bytes. Out of memory is the only error.
    pub fn new(alloc: Global) -> Result<Room, Memory> {
        let mut bytes = Vec::new(alloc);
        bytes.resize(PIECE_BYTES, 0)?;
        Ok(Room { bytes })
    }
}

/// Takes one piece of the source behind what stands, and answers how long it is: 0 at the end of the input.
pub fn take_piece<S: Source>(
    bytes: &mut Vec<u8>,
    source: &mut S,
    room: &mut Room,
) -> Result<usize, HttpFault>
    requires room { length bytes.old.items + PIECE_BYTES < 2 ^ 64 }
    ensures draws { Draws bytes.old.items bytes.new.items (S.left source.old) (S.left source.new) }
    ensures piece { IfOk result (λ n. IsPiece n bytes.old.items bytes.new.items (S.left source.new)) }
    ensures few { length bytes.new.items ≤ length bytes.old.items + PIECE_BYTES }
    ensures halts { IfErr result (λ e. Halts e (S.faults source.old) (S.faults source.new)) }
    ensures beside { S.beside source.new ≡ S.beside source.old }
    ensures steady { OnOk result (S.faults source.new ≡ S.faults source.old) }
{
    bytes.reserve(PIECE_BYTES)?;
    let Ok(count) = source.take(room.bytes.as_mut_slice()) else {
        return Err(HttpFault::Link);
    };
    if bytes
        .extend_from_slice(room.bytes.as_slice().split_at(count).0)
        .is_err()
    {
        // There is room for it.
        unreachable!();
    }
    Ok(count)
}
