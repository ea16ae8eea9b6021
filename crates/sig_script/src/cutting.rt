//! The words of a line, with one space between them.

ghost use Rattle.std.specs.Prelude.{◌≡◌, option_map};
ghost use Rattle.sig_script.specs.Cutting as spec;

/// A word, and what stands after the space behind it.
#[derive(Clone, Copy)]
pub(crate) struct Cut<'a> {
    /// The word.
    pub(crate) word: &'a str,
    /// What stands after it.
    pub(crate) rest: &'a str,
}

/// A client's name, a stream's name, and what stands after them.
#[derive(Clone, Copy)]
pub(crate) struct Names<'a> {
    /// The client's name.
    pub(crate) client: &'a str,
    /// The stream's name.
    pub(crate) stream: &'a str,
    /// What stands after them.
    pub(crate) rest: &'a str,
}

/// A text cut at its first space. None exactly where it has none.
pub(crate) fn at_first_space(text: &str) -> Option<Cut<'_>>
    ensures { option_map (λ c. record { word = c.word.now; rest = c.rest.now }) result ≡ spec.cut_at_space text.now }
{
    match text.split_once(' ') {
        None => None,
        Some((word, rest)) => Some(Cut { word, rest }),
    }
}

/// Whether a text is a last word: it has a byte, and no space.
pub(crate) fn is_word(text: &str) -> bool
    ensures { result ≡ spec.is_word text.now }
{
    !text.is_empty() && at_first_space(text).is_none()
}

fn is_client(name: &str) -> bool
    ensures { result ≡ spec.is_client name.now }
{
    name == "acme" || name == "zeta"
}

/// A client's name, and what stands after it. None exactly where no client's name stands before a space.
pub(crate) fn client_in(text: &str) -> Option<Cut<'_>>
    ensures { option_map (λ c. record { word = c.word.now; rest = c.rest.now }) result ≡ spec.client_cut text.now }
{
    match at_first_space(text) {
        Some(words) if is_client(words.word) => Some(words),
        _ => None,
    }
}

/// A stream's name, and what stands after it. None exactly where nothing stands before a space.
pub(crate) fn stream_in(text: &str) -> Option<Cut<'_>>
    ensures { option_map (λ c. record { word = c.word.now; rest = c.rest.now }) result ≡ spec.stream_cut text.now }
{
    match at_first_space(text) {
        Some(words) if !words.word.is_empty() => Some(words),
        _ => None,
    }
}

/// A client's name, a stream's name, and what stands after them. None exactly where one of the names isn't there.
pub(crate) fn names_in(text: &str) -> Option<Names<'_>>
    ensures { option_map (λ n. record { client = n.client.now; stream = n.stream.now; rest = n.rest.now }) result ≡ spec.names_cut text.now }
{
    match client_in(text) {
        None => None,
        Some(client) => named_by(client.word, client.rest),
    }
}

fn named_by<'a>(client: &'a str, rest: &'a str) -> Option<Names<'a>>
    ensures { option_map (λ n. record { client = n.client.now; stream = n.stream.now; rest = n.rest.now }) result ≡ spec.named_both (record { word = client.now; rest = rest.now }) }
{
    match stream_in(rest) {
        None => None,
        Some(words) => Some(Names {
            client,
            stream: words.word,
            rest: words.rest,
        }),
    }
}
