ghost use Rattle.std.specs.Prelude.{◌≡◌, ◌≤◌, ◌<◌, ◌+◌, length};
ghost use Rattle.sig_http.specs.Section.{Counts, after_byte, after_line, begun_with, section_from};

use sig_json::limits::{HEAD_BYTES, HEADER_FIELDS};

/// What stands of the line that is being read: nothing, one CR alone, or more.
#[derive(Clone, Copy, PartialEq, Eq)]
pub enum Begun {
    Nothing,
    Return,
    Filled,
}

/// How far a head section was read: its bytes, its lines from the first that isn't empty, and the line that is open.
#[derive(Clone, Copy, PartialEq, Eq)]
pub struct Scan {
    pub bytes: usize,
    pub lines: usize,
    pub begun: Begun,
}

/// What bytes say of a head section.
#[derive(Clone, Copy, PartialEq, Eq)]
pub enum Section {
    /// It hasn't ended.
    Open(Scan),
    /// It has so many bytes.
    Ended(usize),
    /// It has too many bytes, or too many lines.
    Long,
}

/// Nothing of a head section.
pub const START: Scan = Scan {
    bytes: 0,
    lines: 0,
    begun: Begun::Nothing,
};

/// What these bytes say of a head section that was read so far.
pub fn scan_section(bytes: &[u8], from: Scan) -> Section
    requires { from.bytes ≤ HEAD_BYTES }
    ensures section { result ≡ section_from from bytes.now }
    ensures counted { Counts from (length bytes.now) result }
{
    let mut scan = from;
    for byte in bytes {
        match after_byte(scan, *byte) {
            Section::Open(next) => scan = next,
            Section::Ended(count) => return Section::Ended(count),
            Section::Long => return Section::Long,
        }
    }
    Section::Open(scan)
}

// What one more byte says.
fn after_byte(scan: Scan, byte: u8) -> Section
    ensures section { result ≡ after_byte scan byte }
    ensures counted { Counts scan 1 result }
{
    if scan.bytes >= HEAD_BYTES {
        return Section::Long;
    }
    if byte == b'\n' {
        return after_line(scan);
    }
    Section::Open(Scan {
        bytes: scan.bytes + 1,
        lines: scan.lines,
        begun: begun_with(scan.begun, byte),
    })
}

// What the end of a line says.
fn after_line(scan: Scan) -> Section
    requires { scan.bytes < HEAD_BYTES }
    ensures section { result ≡ after_line scan }
    ensures counted { Counts scan 1 result }
{
    let bytes = scan.bytes + 1;
    let begun = Begun::Nothing;
    match scan.begun {
        Begun::Filled if scan.lines > HEADER_FIELDS => Section::Long,
        Begun::Filled => Section::Open(Scan {
            bytes,
            lines: scan.lines + 1,
            begun,
        }),
        Begun::Nothing | Begun::Return if scan.lines == 0 => Section::Open(Scan {
            bytes,
            lines: 0,
            begun,
        }),
        Begun::Nothing | Begun::Return => Section::Ended(bytes),
    }
}

/// What stands of a line with one more byte that doesn't end it.
pub fn begun_with(begun: Begun, byte: u8) -> Begun
    ensures { result ≡ begun_with begun byte }
{
    match begun {
        Begun::Nothing if byte == b'\r' => Begun::Return,
        _ => Begun::Filled,
    }
}
