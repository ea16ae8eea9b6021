ghost use Rattle.std.specs.Prelude.{◌≡◌, ◌<◌, ◌≤◌, ◌+◌, ◌^◌, length, take, drop, IfNone};
ghost use Rattle.sig_json.specs.Checks.{first_failing};
ghost use Rattle.sig_json.specs.declared.limits.TheConstants.{LAST_NUMBER};
ghost use Rattle.sig_journal.specs.Layout as layout;
ghost use Rattle.sig_journal.specs.Layout.{header_checks};

use crate::Kind;
use crate::layout::{HEADER_BYTES, MAGIC, VERSION};
use sig_json::limits::LAST_NUMBER;

/// So many bytes from an offset on, or those that there are.
pub fn field(bytes: &[u8], at: usize, count: usize) -> &[u8]
    ensures { result.now ≡ take count (drop at bytes.now) }
{
    let start = bytes.len().min(at);
    let rest = bytes.split_at(start).1;
    rest.split_at(rest.len().min(count)).0
}

/// The number in four bytes, or 0 where they are cut.
#[tactic(auto, unfolding(crate::specs::Layout::number_in_4))]
pub fn number_in_4(bytes: &[u8]) -> u32
    ensures { result ≡ layout.number_in_4 bytes.now }
{
    match bytes {
        [a, b, c, d] => u32::from_be_bytes([*a, *b, *c, *d]),
        _ => 0,
    }
}

/// The number in eight bytes, or 0 where they are cut.
#[tactic(auto, unfolding(crate::specs::Layout::number_in_8))]
pub fn number_in_8(bytes: &[u8]) -> u64
    ensures { result ≡ layout.number_in_8 bytes.now }
{
    match bytes {
        [a, b, c, d, e, f, g, h] => u64::from_be_bytes([*a, *b, *c, *d, *e, *f, *g, *h]),
        _ => 0,
    }
}

/// The length of the snapshot.
pub fn snapshot_length(bytes: &[u8]) -> usize
    ensures length { result ≡ layout.snapshot_length bytes.now }
    ensures bound { result < 2 ^ 32 }
{
    number_in_4(field(bytes, 31, 4)) as usize
}

/// The offset of the first field of the header that is cut or wrong.
pub fn wrong_field(bytes: &[u8], kind: Kind) -> Option<u64>
    ensures first { result ≡ first_failing (header_checks kind bytes.now) }
    ensures whole { IfNone result (35 + layout.snapshot_length bytes.now ≤ length bytes.now) }
    ensures generation { IfNone result (layout.generation_of bytes.now ≤ LAST_NUMBER) }
{
    if field(bytes, 1, 4) != MAGIC.as_slice() {
        return Some(1);
    }
    if field(bytes, 5, 1) != [VERSION].as_slice() {
        return Some(5);
    }
    if field(bytes, 6, 1) != [kind.byte()].as_slice() {
        return Some(6);
    }
    if bytes.len() < 15 || number_in_8(field(bytes, 7, 8)) > LAST_NUMBER {
        return Some(7);
    }
    if bytes.len() < 31 {
        return Some(15);
    }
    if bytes.len() < HEADER_BYTES {
        return Some(31);
    }
    if bytes.len() < HEADER_BYTES + snapshot_length(bytes) {
        return Some(35);
    }
    None
}
