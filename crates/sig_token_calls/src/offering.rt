//! Which tokens that a stream owes it offers, and a page of them (OpenID Shared Signals Framework 1.0, section 8.1.2).

ghost use Rattle.std.specs.Prelude.{◌≡◌, ◌&&◌, All, IfOk, ℕ, List, length, map, nat_eq, not};
ghost use Rattle.indexmap.specs.IndexSet.{contains};
ghost use Rattle.sig_history.specs.Owed.{names_number};
ghost use Rattle.sig_terms.specs.Deliveries.{is_push};
ghost use Rattle.sig_accounts.specs.Owings.{IsPlaced, made_of};
ghost use Rattle.sig_token_calls.specs.Offering as offering;
ghost use Rattle.sig_token_calls.specs.Offering.{open_debts, page_on};

use indexmap::IndexSet;
use sig_event::{Event, Status};
use sig_json::{Items, Memory};
use sig_ledger::{Account, Debt, Publication, Said, owed_token};
use sig_terms::{SettledItem, Token};
use std::alloc::Global;

/// The first tokens that a stream offers.
#[derive(Drop)]
pub(crate) struct Page {
    /// The tokens, in order of number.
    pub tokens: Items<Token>,
    /// Whether it offers further ones.
    pub more: bool,
}

/// Whether the tokens of a stream are pushed (RFC 8935), and not polled.
pub(crate) fn is_pushed(account: &Account) -> bool
    ensures { result ≡ is_push account.now.owing.stream.conf.delivery }
{
    account.conf().delivery.is_push()
}

// Whether what a token says is that its stream's status changed.
fn is_notice(published: &[Publication], debt: &Debt) -> bool
    requires { IsPlaced (length published.now) debt.now.said }
    ensures { (stream : List ℕ) → result ≡ offering.is_notice published.now stream debt.now }
{
    match &debt.said {
        Said::Published { place } => {
            matches!(published[*place].news().event, Event::StreamUpdated { .. })
        }
        Said::Verified { .. } => false,
        Said::Updated { .. } => true,
    }
}

// Whether a stream offers a token that it owes: one that isn't enabled offers what tells of its status alone.
fn offers(published: &[Publication], account: &Account, debt: &Debt) -> bool
    requires { IsPlaced (length published.now) debt.now.said }
    ensures { result ≡ offering.offers published.now account.now.owing.stream debt.now }
{
    match account.status() {
        Status::Enabled => true,
        Status::Paused | Status::Disabled => is_notice(published, debt),
    }
}

// Whether a stream offers a token that it owes, and no item names it.
fn is_open(published: &[Publication], account: &Account, named: &IndexSet<u64>, debt: &Debt) -> bool
    requires { IsPlaced (length published.now) debt.now.said }
    ensures { result ≡ (not (contains nat_eq named.now debt.now.number) && offering.offers published.now account.now.owing.stream debt.now) }
{
    !named.contains(&debt.number) && offers(published, account, debt)
}

// The numbers that the items name, for one look-up a token.
fn numbers_of(alloc: Global, items: &[SettledItem]) -> Result<IndexSet<u64>, Memory>
    ensures { IfOk result (λ s. (n : ℕ) → contains nat_eq s n ≡ names_number n items.now) }
{
    let mut numbers = IndexSet::new(alloc);
    for item in items {
        let _ = numbers.insert(item.number)?;
    }
    Ok(numbers)
}

/// The first tokens that a stream offers but for those that the items name, at most so many, and whether there are further
/// ones. No further one is made.
pub(crate) fn first_offered(
    alloc: Global,
    store_id: [u8; 16],
    published: &[Publication],
    account: &Account,
    items: &[SettledItem],
    size: usize,
) -> Result<Page, Memory>
    requires { All (λ d. IsPlaced (length published.now) d.said) account.now.owing.owed }
    ensures { IfOk result (λ p. p ≡ page_on account.now.owing.stream.conf.delivery size
        (map (made_of store_id published.now account.now.owing.stream) (open_debts published.now account.now.owing.stream items.now account.now.owing.owed))) }
{
    let owed = account.owed();
    let named = numbers_of(alloc, items)?;
    let mut tokens = Vec::new(alloc);
    let mut room = size;
    for debt in owed {
        if is_open(published, account, &named, debt) {
            if room == 0 {
                let tokens = Items::of(tokens);
                return Ok(Page { tokens, more: true });
            }
            let token = owed_token(alloc, store_id, published, account, debt)?;
            tokens.push(token)?;
            room -= 1;
        }
    }
    let tokens = Items::of(tokens);
    Ok(Page {
        tokens,
        more: false,
    })
}
