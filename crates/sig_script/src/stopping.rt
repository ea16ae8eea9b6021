//! What a line says of a node that stands still.

ghost use Rattle.std.specs.Prelude.{◌≡◌, ◌<◌, [], ◌∷◌, IfSome, option_map};
ghost use Rattle.sig_script.specs.Stopping as spec;

use crate::ScriptNode;
use crate::cutting::at_first_space;
use sig_json::value_named;

/// How a node's disk stands still, and the line that is played meanwhile.
#[derive(Clone, Copy)]
pub(crate) struct Stopping<'a> {
    /// Whose disk.
    pub(crate) node: ScriptNode,
    /// After how many of its calls, at most four.
    pub(crate) calls: u64,
    /// What it rests with in each byte that isn't synced.
    pub(crate) fill: u8,
    /// The line.
    pub(crate) line: &'a str,
}

/// The node that a word is. None exactly where it is none.
pub(crate) fn node_in(word: &str) -> Option<ScriptNode>
    ensures { result ≡ spec.node_of word.now }
{
    value_named(word)
}

/// `<tx or rx> <calls> <byte> <line>`. None exactly where one of the words isn't there.
pub(crate) fn stopping_in(text: &str) -> Option<Stopping<'_>>
    ensures { option_map (λ s. record { node = s.node; calls = s.calls; fill = s.fill; line = s.line.now }) result ≡ spec.stopping_of text.now }
{
    match at_first_space(text) {
        None => None,
        Some(words) => with_node(words.word, words.rest),
    }
}

fn with_node<'a>(word: &'a str, rest: &'a str) -> Option<Stopping<'a>>
    ensures { option_map (λ s. record { node = s.node; calls = s.calls; fill = s.fill; line = s.line.now }) result ≡ spec.with_node (record { word = word.now; rest = rest.now }) }
{
    match node_in(word) {
        None => None,
        Some(node) => then_calls(node, rest),
    }
}

fn then_calls(node: ScriptNode, rest: &str) -> Option<Stopping<'_>>
    ensures { option_map (λ s. record { node = s.node; calls = s.calls; fill = s.fill; line = s.line.now }) result ≡ spec.then_calls rest.now node }
{
    match at_first_space(rest) {
        None => None,
        Some(words) => with_calls(node, words.word, words.rest),
    }
}

fn with_calls<'a>(node: ScriptNode, word: &'a str, rest: &'a str) -> Option<Stopping<'a>>
    ensures { option_map (λ s. record { node = s.node; calls = s.calls; fill = s.fill; line = s.line.now }) result ≡ spec.with_calls node (record { word = word.now; rest = rest.now }) }
{
    match calls_in(word.as_bytes()) {
        None => None,
        Some(calls) => then_byte(node, calls, rest),
    }
}

fn then_byte(node: ScriptNode, calls: u64, rest: &str) -> Option<Stopping<'_>>
    ensures { option_map (λ s. record { node = s.node; calls = s.calls; fill = s.fill; line = s.line.now }) result ≡ spec.then_byte node rest.now calls }
{
    match at_first_space(rest) {
        None => None,
        Some(words) => with_byte(node, calls, words.word, words.rest),
    }
}

fn with_byte<'a>(node: ScriptNode, calls: u64, word: &'a str, line: &'a str) -> Option<Stopping<'a>>
    ensures { option_map (λ s. record { node = s.node; calls = s.calls; fill = s.fill; line = s.line.now }) result ≡ spec.with_byte node calls (record { word = word.now; rest = line.now }) }
{
    match byte_in(word.as_bytes()) {
        None => None,
        Some(fill) => Some(Stopping {
            node,
            calls,
            fill,
            line,
        }),
    }
}

// The number of calls that a word is: one digit from 0 to 4.
fn calls_in(word: &[u8]) -> Option<u64>
    ensures { result ≡ spec.calls_of word.now }
{
    match word {
        [digit] if (b'0'..=b'4').contains(digit) => Some(u64::from(*digit - b'0')),
        _ => None,
    }
}

// The byte that a word is: two hexadecimal digits, the greater first.
fn byte_in(word: &[u8]) -> Option<u8>
    ensures { result ≡ spec.byte_of word.now }
{
    match word {
        [high, low] => byte_by(*low, *high),
        _ => None,
    }
}

fn byte_by(low: u8, high: u8) -> Option<u8>
    ensures { result ≡ spec.byte_of (high ∷ low ∷ []) }
{
    let high = hex_in(high)?;
    let low = hex_in(low)?;
    Some(high * 16 + low)
}

// The number of a hexadecimal digit; letters are in lower case.
fn hex_in(digit: u8) -> Option<u8>
    ensures value { result ≡ spec.hex_of digit }
    ensures bound { IfSome result (λ n. n < 16) }
{
    match digit {
        b'0'..=b'9' => Some(digit - b'0'),
        b'a'..=b'f' => Some(digit - b'a' + 10),
        _ => None,
    }
}
