ghost use Rattle.std.specs.Prelude.{◌≡◌, ◌<◌, ℕ, [], IfOk, false, length, map, nat_eq, replicate, slice_index_or, true};
ghost use Rattle.std.specs.List.{list_any};
ghost use Rattle.sig_subject.specs.Matching.{is_identical};
ghost use Rattle.sig_history.specs.Facts.{is_told};
ghost use Rattle.sig_history.specs.Streams.{is_due};
ghost use Rattle.sig_accounts.specs.Listening.{AreBelow, IsListening, is_simple};
ghost use Rattle.sig_accounts.specs.Owings.{list_of, owing_in, stream_in};

use crate::account::Account;
use crate::listeners::Listeners;
use sig_event::News;
use sig_json::Memory;
use sig_terms::Fact;
use std::alloc::Global;
use std::marker::Model;

/// Which streams a fact tells something: a mark for each, in their order. Contracts see it as the marks.
#[derive(Drop)]
pub struct ToldStreams {
    marks: Vec<bool>,
}

impl Model for ToldStreams {
    ghost use Rattle.std.specs.Prelude.{Bool, List};

    ghost Value = { List Bool };

    ghost view = { λ t. t.marks.items };
}

impl ToldStreams {
    /// No mark, where nothing is asked of streams. It takes no memory.
    pub fn none(alloc: Global) -> ToldStreams
        ensures { result ≡ [] }
    {
        ToldStreams {
            marks: Vec::new(alloc),
        }
    }

    /// So many marks, none of which is set.
    pub(crate) fn unmarked(alloc: Global, count: usize) -> Result<ToldStreams, Memory>
        ensures { IfOk result (λ told. told ≡ replicate count false) }
    {
        Ok(ToldStreams {
            marks: vec![in alloc; false; count]?,
        })
    }

    /// A mark for each seat, set where the seat is among these; all are below a number.
    pub(crate) fn seated(
        alloc: Global,
        seats: &[usize],
        among: &[usize],
        number: usize,
    ) -> Result<ToldStreams, Memory>
        requires { AreBelow number seats.now }
        ensures { IfOk result (λ told. told ≡ map (λ seat. list_any (nat_eq seat) among.now) seats.now) }
    {
        let bits = bits_of(alloc, among, number)?;
        let bits = ToldStreams { marks: bits };
        let mut marks = Vec::new(alloc);
        marks.reserve(seats.len())?;
        for seat in seats {
            marks.push(bits.has(*seat))?;
        }
        Ok(ToldStreams { marks })
    }

    /// Whether the stream at a place is told.
    pub fn has(&self, place: usize) -> bool
        ensures { result ≡ slice_index_or self.now place false }
    {
        match self.marks.get(place) {
            Some(mark) => *mark,
            None => false,
        }
    }
}

// A bit for each number below one, set where it is among these.
fn bits_of(alloc: Global, among: &[usize], number: usize) -> Result<Vec<bool>, Memory>
    ensures long { IfOk result (λ bits. length bits.items ≡ number) }
    ensures set { IfOk result (λ bits. (n : ℕ) → n < number → slice_index_or bits.items n false ≡ list_any (nat_eq n) among.now) }
{
    let mut bits = vec![in alloc; false; number]?;
    for seat in among {
        if *seat < number {
            bits[*seat] = true;
        }
    }
    Ok(bits)
}

/// Which of these streams news about a simple subject tell something: only those whose default subjects are all and those that
/// list the subject are asked, each once.
pub(crate) fn told_by_news(
    alloc: Global,
    accounts: &[Account],
    listeners: &Listeners,
    news: &News,
) -> Result<ToldStreams, Memory>
    requires simple { is_simple news.now.subject ≡ true }
    requires listening { IsListening listeners.now (map list_of (map owing_in accounts.now)) }
    ensures { IfOk result (λ told. told ≡ map (is_due news.now) (map stream_in (map owing_in accounts.now))) }
{
    let heard = listeners.heard_at(alloc, &news.subject)?;
    let mut marks = Vec::new(alloc);
    marks.reserve(accounts.len())?;
    for (place, account) in accounts.iter().enumerate() {
        let heard = heard.has(place);
        marks.push(is_told_of(account, news, heard))?;
    }
    Ok(ToldStreams { marks })
}

// Whether news are due on a stream, where what says whether it may list their subject is known.
fn is_told_of(account: &Account, news: &News, heard: bool) -> bool
    requires simple { is_simple news.now.subject ≡ true }
    requires heard { list_any (is_identical news.now.subject) account.now.owing.stream.listed ≡ true → heard ≡ true }
    ensures { result ≡ is_due news.now account.now.owing.stream }
{
    let asked = heard || account.hears_all();
    if asked { account.is_due(news) } else { false }
}

/// Which of these streams a fact tells something. Each is asked once.
pub fn told_by(alloc: Global, accounts: &[Account], fact: &Fact) -> Result<ToldStreams, Memory>
    ensures { IfOk result (λ told. told ≡ map (is_told fact.now) (map stream_in (map owing_in accounts.now))) }
{
    let mut marks = Vec::new(alloc);
    marks.reserve(accounts.len())?;
    for account in accounts {
        marks.push(account.is_told(fact))?;
    }
    Ok(ToldStreams { marks })
}
