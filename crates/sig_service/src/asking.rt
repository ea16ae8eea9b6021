//! The words of `init`, `serve`, `receive`, `fetch`, `courier` and `manage`.

ghost use Rattle.std.specs.Prelude.{◌≡◌, map, option_and_then, option_map, string_bytes};
ghost use Rattle.sig_service.specs.Asking as spec;

use sig_init::store_id_of;
use sig_journal::Kind;
use sig_json::limits::LAST_NUMBER;

/// What `init` is asked for.
#[derive(Clone, Copy)]
pub struct InitAsk<'a> {
    /// Whose store it is to be.
    pub kind: Kind,
    /// Its name, by which its two files are named.
    pub store: &'a str,
    /// Its id.
    pub store_id: [u8; 16],
}

/// What `init` is asked for by these words; none exactly where they aren't `init`, `tx` or `rx`, the name of a store, which
/// isn't empty, and its id as a UUID (RFC 9562, section 4).
pub fn init_of(words: &[String]) -> Option<InitAsk<'_>>
    ensures { option_map (λ ask. record { kind = ask.kind; store = ask.store.now; store_id = ask.store_id }) result ≡ spec.init_of (map (λ word. string_bytes word) words.now) }
{
    let (name, words) = words.split_first()?;
    if name.as_str() != "init" {
        return None;
    }
    init_words(words)
}

// What `init` is asked for by the words after its name.
#[tactic(auto, using(crate::proofs::AskingLemmas::of_three))]
fn init_words(words: &[String]) -> Option<InitAsk<'_>>
    ensures { option_map (λ ask. record { kind = ask.kind; store = ask.store.now; store_id = ask.store_id }) result ≡ spec.init_words (map (λ word. string_bytes word) words.now) }
{
    if words.len() != 3 {
        return None;
    }
    ask_of(words[0].as_str(), words[1].as_str(), words[2].as_str())
}

fn ask_of<'a>(kind: &str, store: &'a str, store_id: &str) -> Option<InitAsk<'a>>
    ensures { option_map (λ ask. record { kind = ask.kind; store = ask.store.now; store_id = ask.store_id }) result ≡ spec.ask_of kind.now store.now store_id.now }
{
    if store.is_empty() {
        return None;
    }
    let kind = kind_of(kind)?;
    let store_id = store_id_of(store_id)?;
    Some(InitAsk {
        kind,
        store,
        store_id,
    })
}

fn kind_of(word: &str) -> Option<Kind>
    ensures { result ≡ spec.kind_of word.now }
{
    match word {
        "tx" => Some(Kind::Tx),
        "rx" => Some(Kind::Rx),
        _ => None,
    }
}

/// What a command over settings and a store is asked for.
#[derive(Clone, Copy)]
pub struct StoreAsk<'a> {
    /// The name of the settings.
    pub settings: &'a str,
    /// The name of the store, by which its two files are named.
    pub store: &'a str,
    /// How many watches, or rounds, it runs at most.
    pub count: u64,
}

/// Whose server.
#[derive(Clone, Copy, PartialEq, Eq)]
pub enum Server {
    /// The transmitter's, which `serve` runs.
    Transmitter,
    /// The receiver's, which `receive` runs.
    Receiver,
}

/// What a server is asked for.
#[derive(Clone, Copy)]
pub struct ServerAsk<'a> {
    /// Whose.
    pub server: Server,
    /// Over what.
    pub over: StoreAsk<'a>,
}

/// What a server is asked for by these words; none exactly where they aren't `serve` or `receive`, the names of settings and of
/// a store, neither of which is empty, and a number of watches from 1 to 2^62, in decimal without leading zeros.
pub fn server_of(words: &[String]) -> Option<ServerAsk<'_>>
    ensures { option_map (λ ask. record { server = ask.server; over = record { settings = ask.over.settings.now; store = ask.over.store.now; count = ask.over.count } }) result ≡ spec.server_of (map (λ word. string_bytes word) words.now) }
{
    let (name, words) = words.split_first()?;
    let server = server_named(name.as_str())?;
    let over = store_words(words)?;
    Some(ServerAsk { server, over })
}

fn server_named(word: &str) -> Option<Server>
    ensures { result ≡ spec.server_named word.now }
{
    match word {
        "serve" => Some(Server::Transmitter),
        "receive" => Some(Server::Receiver),
        _ => None,
    }
}

/// What `fetch` is asked for by these words; none exactly where they aren't `fetch`, the names of settings and of a store,
/// neither of which is empty, and a number of rounds from 1 to 2^62, in decimal without leading zeros.
pub fn fetch_of(words: &[String]) -> Option<StoreAsk<'_>>
    ensures { option_map (λ ask. record { settings = ask.settings.now; store = ask.store.now; count = ask.count }) result ≡ spec.fetch_of (map (λ word. string_bytes word) words.now) }
{
    let (name, words) = words.split_first()?;
    if name.as_str() != "fetch" {
        return None;
    }
    store_words(words)
}

// What a command over settings and a store is asked for by the words after its name.
#[tactic(auto, using(crate::proofs::StoreAskingLemmas::store_three))]
fn store_words(words: &[String]) -> Option<StoreAsk<'_>>
    ensures { option_map (λ ask. record { settings = ask.settings.now; store = ask.store.now; count = ask.count }) result ≡ spec.store_words (map (λ word. string_bytes word) words.now) }
{
    if words.len() != 3 {
        return None;
    }
    store_ask_of(words[0].as_str(), words[1].as_str(), words[2].as_str())
}

fn store_ask_of<'a>(settings: &'a str, store: &'a str, count: &str) -> Option<StoreAsk<'a>>
    ensures { option_map (λ ask. record { settings = ask.settings.now; store = ask.store.now; count = ask.count }) result ≡ spec.store_ask_of settings.now store.now count.now }
{
    if settings.is_empty() || store.is_empty() {
        return None;
    }
    let count = count_of(count)?;
    Some(StoreAsk {
        settings,
        store,
        count,
    })
}

/// What `courier` is asked for.
#[derive(Clone, Copy)]
pub struct CourierAsk<'a> {
    /// The name of the settings.
    pub settings: &'a str,
    /// The name of the store, by which its two files are named.
    pub store: &'a str,
}

/// What `courier` is asked for by these words; none exactly where they aren't `courier` and the names of settings and of a
/// store, neither of which is empty.
pub fn courier_of(words: &[String]) -> Option<CourierAsk<'_>>
    ensures { option_map (λ ask. record { settings = ask.settings.now; store = ask.store.now }) result ≡ spec.courier_of (map (λ word. string_bytes word) words.now) }
{
    let (name, words) = words.split_first()?;
    if name.as_str() != "courier" {
        return None;
    }
    courier_words(words)
}

// What `courier` is asked for by the words after its name.
#[tactic(auto, using(crate::proofs::CourierAskingLemmas::courier_two))]
fn courier_words(words: &[String]) -> Option<CourierAsk<'_>>
    ensures { option_map (λ ask. record { settings = ask.settings.now; store = ask.store.now }) result ≡ spec.courier_words (map (λ word. string_bytes word) words.now) }
{
    if words.len() != 2 {
        return None;
    }
    courier_ask_of(words[0].as_str(), words[1].as_str())
}

fn courier_ask_of<'a>(settings: &'a str, store: &'a str) -> Option<CourierAsk<'a>>
    ensures { option_map (λ ask. record { settings = ask.settings.now; store = ask.store.now }) result ≡ spec.courier_ask_of settings.now store.now }
{
    if settings.is_empty() || store.is_empty() {
        return None;
    }
    Some(CourierAsk { settings, store })
}

/// What `manage` is asked for by these words, the name of settings; none exactly where they aren't `manage` and a name that isn't
/// empty.
pub fn manage_of(words: &[String]) -> Option<&str>
    ensures { option_map (λ settings. settings.now) result ≡ spec.manage_of (map (λ word. string_bytes word) words.now) }
{
    let (name, words) = words.split_first()?;
    if name.as_str() != "manage" {
        return None;
    }
    manage_words(words)
}

// What `manage` is asked for by the words after its name.
#[tactic(auto, using(crate::proofs::ManageAskingLemmas::manage_one))]
fn manage_words(words: &[String]) -> Option<&str>
    ensures { option_map (λ settings. settings.now) result ≡ spec.manage_words (map (λ word. string_bytes word) words.now) }
{
    if words.len() != 1 {
        return None;
    }
    filled(words[0].as_str())
}

fn filled(word: &str) -> Option<&str>
    ensures { option_map (λ settings. settings.now) result ≡ spec.filled word.now }
{
    if word.is_empty() { None } else { Some(word) }
}

// A number from 1 to 2^62, in decimal without leading zeros.
fn count_of(word: &str) -> Option<u64>
    ensures { result ≡ spec.count_of word.now }
{
    match word.as_bytes() {
        [first, ..] if *first > b'0' => up_to_last(word.parse::<u64>().ok()),
        _ => None,
    }
}

fn up_to_last(number: Option<u64>) -> Option<u64>
    ensures { result ≡ option_and_then spec.within number }
{
    match number {
        Some(number) if number <= LAST_NUMBER => Some(number),
        _ => None,
    }
}
