use crate::spelling::{bare, cut_at_space};
use sig_json::{Bytes, Memory};
use std::alloc::Global;
use std::str;

/// A program that answers lines.
pub trait Answering {
    /// The answer to a line by its word and what stands after it; none where it is no case.
    fn told(&mut self, word: &str, rest: &[u8]) -> Result<Option<Bytes>, Memory>;
}

/// The answer to a line, none where it is passed over.
pub fn answered<A: Answering>(
    alloc: Global,
    program: &mut A,
    line: &[u8],
) -> Result<Option<Bytes>, Memory> {
    if line.is_empty() || line.starts_with(b"#") {
        return Ok(None);
    }
    match asked(program, line)? {
        Some(answer) => Ok(Some(answer)),
        None => no_case(alloc),
    }
}

/// The answer to a line that is no case.
pub fn no_case(alloc: Global) -> Result<Option<Bytes>, Memory> {
    Ok(Some(bare(alloc, "bad-case")?))
}

fn asked<A: Answering>(program: &mut A, line: &[u8]) -> Result<Option<Bytes>, Memory> {
    let (word, rest) = cut_at_space(line).unwrap_or((line, b""));
    match str::from_utf8(word) {
        Ok(word) => program.told(word, rest),
        Err(_) => Ok(None),
    }
}
