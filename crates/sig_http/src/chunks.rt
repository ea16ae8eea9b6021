ghost use Rattle.std.specs.Prelude.{◌≡◌, ◌<◌, ◌+◌, length, IfOk};
ghost use Rattle.sig_http.specs.Chunks.{IsLighter, IsStepLighter, StaysLight, Tells, after_line, after_size, chunk_byte, chunks_from, first, frame_bytes, framed_by, framed_byte, line_with, size_with, trailer_byte, weight};
ghost use Rattle.sig_http.specs.Values.{hex_digit, number_with};

use crate::HttpFault;
use crate::limits::{
    CHUNK_BYTES, CHUNK_DIGITS, CHUNK_FRAME_BYTES, CHUNK_LINE_BYTES, TRAILER_BYTES,
};
use crate::section::{Begun, begun_with};
use crate::values::{hex_digit, number_with};
use sig_json::Memory;

/// Where a chunk line stands: in the digits of its size, in the spaces and tabs after them, in its extensions, after the CR
/// that is to end it, or past a byte that it may not have.
#[derive(Clone, Copy, PartialEq, Eq)]
pub enum Part {
    Digits,
    Pad,
    Extension,
    Return,
    Wrong,
}

/// A chunk line so far: its bytes, the digits of its size and the number that they are.
#[derive(Clone, Copy, PartialEq, Eq)]
pub struct SizeLine {
    pub bytes: usize,
    pub digits: usize,
    pub size: usize,
    pub part: Part,
}

/// Where a chunked body stands.
#[derive(Clone, Copy, PartialEq, Eq)]
pub enum Phase {
    /// In a chunk line.
    Line(SizeLine),
    /// In a chunk, of which so many bytes are to come, at least one.
    Data(usize),
    /// After the bytes of a chunk, where CR LF follows.
    Return,
    /// After the first byte behind a chunk's bytes, and whether that was CR.
    Newline(bool),
    /// In the trailer section: its bytes so far, and the line that is open.
    Trailer(usize, Begun),
}

/// Where a chunked body stands, and how many bytes beside its content may still come.
#[derive(Clone, Copy, PartialEq, Eq)]
pub struct Standing {
    pub spare: usize,
    pub phase: Phase,
}

/// What one byte of a chunked body says, however many came before.
#[derive(Clone, Copy, PartialEq, Eq)]
pub enum Chunk {
    /// It is one of those between the chunks' bytes.
    On(Phase),
    /// It is a byte of the content.
    Keeps(Phase),
    /// It is the last byte of the body.
    Ended,
    /// It decides this fault.
    Broken(HttpFault),
}

/// What one byte of a chunked body says, of which so many bytes may still come.
#[derive(Clone, Copy, PartialEq, Eq)]
pub enum Step {
    /// It is one of those between the chunks' bytes.
    On(Standing),
    /// It is a byte of the content.
    Keeps(Standing),
    /// It is the last byte of the body.
    Ended,
    /// It decides this fault.
    Broken(HttpFault),
}

/// What bytes say of a chunked body.
#[derive(Clone, Copy, PartialEq, Eq)]
pub enum Chunks {
    /// It hasn't ended.
    Open(Standing),
    /// It ended before the byte of this place.
    Ended(usize),
    /// It is broken.
    Broken(HttpFault),
}

/// A chunk line of which nothing was read.
pub const EMPTY_LINE: SizeLine = SizeLine {
    bytes: 0,
    digits: 0,
    size: 0,
    part: Part::Digits,
};

/// A chunked body of which nothing was read, whose content has at most so many bytes.
pub fn first(limit: usize) -> Standing
    ensures { result ≡ first limit }
{
    Standing {
        spare: frame_bytes(limit),
        phase: Phase::Line(EMPTY_LINE),
    }
}

// How many bytes beside its content a chunked body may have, whose content has at most so many.
fn frame_bytes(limit: usize) -> usize
    ensures { result ≡ frame_bytes limit }
{
    limit / CHUNK_BYTES * CHUNK_FRAME_BYTES + CHUNK_LINE_BYTES + TRAILER_BYTES
}

/// What these bytes say of a chunked body with this content so far, to which theirs is added.
pub fn read_chunks(
    bytes: &[u8],
    standing: Standing,
    limit: usize,
    content: &mut Vec<u8>,
) -> Result<Chunks, Memory>
    ensures told { IfOk result (λ chunks. Tells chunks content.new.items bytes.now (chunks_from limit standing content.old.items bytes.now)) }
    ensures light { IfOk result (λ chunks. StaysLight limit standing content.old.items content.new.items bytes.now chunks) }
{
    let mut standing = standing;
    for (place, byte) in bytes.iter().enumerate() {
        match framed_byte(limit, content.len(), standing, *byte) {
            Step::On(next) => standing = next,
            Step::Keeps(next) => {
                content.push(*byte)?;
                standing = next;
            }
            Step::Ended => return Ok(Chunks::Ended(place + 1)),
            Step::Broken(fault) => return Ok(Chunks::Broken(fault)),
        }
    }
    Ok(Chunks::Open(standing))
}

// What one byte says after so many bytes of content, where no more bytes beside it come than may.
fn framed_byte(limit: usize, held: usize, standing: Standing, byte: u8) -> Step
    ensures step { result ≡ framed_byte limit held standing byte }
    ensures lighter { IsStepLighter limit held standing result }
{
    framed_by(standing, chunk_byte(limit, held, standing.phase, byte))
}

// The same of what the byte says by itself.
fn framed_by(standing: Standing, chunk: Chunk) -> Step
    ensures { result ≡ framed_by standing chunk }
{
    let spare = standing.spare;
    match chunk {
        Chunk::Keeps(phase) => Step::Keeps(Standing { spare, phase }),
        Chunk::Broken(fault) => Step::Broken(fault),
        Chunk::On(_) | Chunk::Ended if spare == 0 => Step::Broken(HttpFault::BodyLong),
        Chunk::On(phase) => Step::On(Standing {
            spare: spare - 1,
            phase,
        }),
        Chunk::Ended => Step::Ended,
    }
}

// What one byte says after so many bytes of content, however many came beside it.
fn chunk_byte(limit: usize, held: usize, phase: Phase, byte: u8) -> Chunk
    ensures chunk { result ≡ chunk_byte limit held phase byte }
    ensures lighter { IsLighter limit held phase result }
{
    match phase {
        Phase::Line(line) if byte == b'\n' => after_line(limit, held, line),
        Phase::Line(line) if line.bytes >= CHUNK_LINE_BYTES - 1 => Chunk::Broken(HttpFault::Length),
        Phase::Line(line) => Chunk::On(Phase::Line(line_with(line, byte))),
        Phase::Data(left) if left <= 1 => Chunk::Keeps(Phase::Return),
        Phase::Data(left) => Chunk::Keeps(Phase::Data(left - 1)),
        Phase::Return => Chunk::On(Phase::Newline(byte == b'\r')),
        Phase::Newline(true) if byte == b'\n' => Chunk::On(Phase::Line(EMPTY_LINE)),
        Phase::Newline(_) => Chunk::Broken(HttpFault::Length),
        Phase::Trailer(bytes, begun) => trailer_byte(bytes, begun, byte),
    }
}

// What the LF of a chunk line says.
fn after_line(limit: usize, held: usize, line: SizeLine) -> Chunk
    ensures { result ≡ after_line limit held line }
{
    match line.part {
        Part::Return if line.size == 0 => Chunk::On(Phase::Trailer(0, Begun::Nothing)),
        Part::Return if line.size > limit.saturating_sub(held) => Chunk::Broken(
            HttpFault::BodyLong,
        ),
        Part::Return => Chunk::On(Phase::Data(line.size)),
        _ => Chunk::Broken(HttpFault::Length),
    }
}

// A chunk line with one more byte that isn't LF.
fn line_with(line: SizeLine, byte: u8) -> SizeLine
    requires { line.bytes < CHUNK_LINE_BYTES }
    ensures line { result ≡ line_with line byte }
    ensures counted { result.bytes ≡ line.bytes + 1 }
{
    match line.part {
        Part::Digits => size_with(line, byte),
        Part::Pad => in_part(line, after_size(byte)),
        Part::Extension if byte == b'\r' => in_part(line, Part::Return),
        Part::Extension => in_part(line, Part::Extension),
        Part::Return | Part::Wrong => in_part(line, Part::Wrong),
    }
}

// The same line with one more byte, in this part.
fn in_part(line: SizeLine, part: Part) -> SizeLine
    requires { line.bytes < CHUNK_LINE_BYTES }
    ensures { result ≡ record line { bytes = line.bytes + 1; part = part } }
{
    SizeLine {
        bytes: line.bytes + 1,
        digits: line.digits,
        size: line.size,
        part,
    }
}

// A chunk line that is in its digits, with one more byte.
fn size_with(line: SizeLine, byte: u8) -> SizeLine
    requires { line.bytes < CHUNK_LINE_BYTES }
    ensures line { result ≡ size_with line byte }
    ensures counted { result.bytes ≡ line.bytes + 1 }
{
    match hex_digit(byte) {
        Some(_) if line.digits >= CHUNK_DIGITS => in_part(line, Part::Wrong),
        Some(digit) => SizeLine {
            bytes: line.bytes + 1,
            digits: line.digits + 1,
            size: number_with(16, line.size, digit),
            part: Part::Digits,
        },
        None if line.digits == 0 => in_part(line, Part::Wrong),
        None => in_part(line, after_size(byte)),
    }
}

// What follows the digits of a size: this byte.
fn after_size(byte: u8) -> Part
    ensures { result ≡ after_size byte }
{
    match byte {
        b' ' | b'\t' => Part::Pad,
        b';' => Part::Extension,
        b'\r' => Part::Return,
        _ => Part::Wrong,
    }
}

// What one byte of a trailer section says.
fn trailer_byte(bytes: usize, begun: Begun, byte: u8) -> Chunk
    ensures { result ≡ trailer_byte bytes begun byte }
{
    let ends = byte == b'\n';
    if ends && begun != Begun::Filled {
        return Chunk::Ended;
    }
    if bytes >= TRAILER_BYTES - 1 {
        return Chunk::Broken(HttpFault::Length);
    }
    let begun = if ends {
        Begun::Nothing
    } else {
        begun_with(begun, byte)
    };
    Chunk::On(Phase::Trailer(bytes + 1, begun))
}
