ghost use Rattle.std.specs.Prelude.{◌≡◌, ◌≤◌, length, option_map};
ghost use Rattle.std.specs.List.{count_by};
ghost use Rattle.httparse.specs.Spans.{span_bytes};
ghost use Rattle.sig_http.specs.Fields as spec;

use crate::values::{is_number, is_same_number, is_word, says_close};
use httparse::spans::{HeaderSpan, Span};

/// The bytes that a span covers.
pub fn part(bytes: &[u8], span: Span) -> &[u8]
    ensures { result.now ≡ span_bytes bytes.now span }
{
    let rest = bytes.split_at(span.start.min(bytes.len())).1;
    let count = span.end.saturating_sub(span.start);
    rest.split_at(count.min(rest.len())).0
}

/// The value of the first field of a name.
pub fn first_value<'b>(bytes: &'b [u8], headers: &[HeaderSpan], name: &str) -> Option<&'b [u8]>
    ensures { option_map (λ v. v.now) result ≡ spec.first_value name.now (spec.fields_at bytes.now headers.now) }
{
    for header in headers {
        if is_word(part(bytes, header.name), name) {
            return Some(part(bytes, header.value));
        }
    }
    None
}

/// How many fields have a name.
pub fn count_named(bytes: &[u8], headers: &[HeaderSpan], name: &str) -> usize
    ensures value { result ≡ count_by (spec.is_named name.now) (spec.fields_at bytes.now headers.now) }
    ensures bound { result ≤ length headers.now }
{
    let mut count = 0;
    for header in headers {
        if is_word(part(bytes, header.name), name) {
            count += 1;
        }
    }
    count
}

/// Whether each field of a name has this word as its value.
pub fn all_say(bytes: &[u8], headers: &[HeaderSpan], name: &str, word: &str) -> bool
    ensures { result ≡ spec.all_say name.now word.now (spec.fields_at bytes.now headers.now) }
{
    for header in headers {
        let other = is_word(part(bytes, header.name), name)
            && !is_word(part(bytes, header.value), word);
        if other {
            return false;
        }
    }
    true
}

/// Whether each field `content-length` has a number, and the same as this one.
pub fn lengths_are(bytes: &[u8], headers: &[HeaderSpan], first: &[u8]) -> bool
    ensures { result ≡ spec.lengths_are first.now (spec.fields_at bytes.now headers.now) }
{
    for header in headers {
        let value = part(bytes, header.value);
        let fits = is_number(value) && is_same_number(value, first);
        if is_word(part(bytes, header.name), "content-length") && !fits {
            return false;
        }
    }
    true
}

/// Whether a field `connection` says `close`.
pub fn closes(bytes: &[u8], headers: &[HeaderSpan]) -> bool
    ensures { result ≡ spec.closes (spec.fields_at bytes.now headers.now) }
{
    for header in headers {
        if is_word(part(bytes, header.name), "connection")
            && says_close(part(bytes, header.value))
        {
            return true;
        }
    }
    false
}
