//! Which facts are taken in that were journalled.

ghost use Rattle.std.specs.Prelude.{◌≡◌, ◌∷◌, [], IfOk, OnErr, OnOk};
ghost use Rattle.sig_json.specs.Answers.{Answers};
ghost use Rattle.sig_history.specs.Owed.{sum_of};
ghost use Rattle.sig_history.specs.Sound as sound;
ghost use Rattle.sig_history.specs.Sound.{Fits};
ghost use Rattle.sig_ledger.specs.Books.{sum_in};
ghost use Rattle.sig_ledger.specs.Room.{IsAddressedIn};
ghost use Rattle.sig_outbox.specs.State.{taken_where};

use sig_json::{Memory, MemoryRefusal};
use sig_ledger::{Addressed, Ledger};
use sig_terms::Fact;
use sig_token_calls::may_be_made;
use thiserror::Error;

/// Why a fact wasn't taken in.
#[derive(Clone, Copy, Debug, PartialEq, Eq, Error)]
pub enum ApplyFault {
    /// It doesn't fit what the history came to: a stream or token that it names isn't there, or what it brings may not be
    /// brought.
    #[error("the fact doesn't fit its history")]
    Bad,
    /// Out of memory.
    #[error("out of memory")]
    Memory,
}

impl<R: MemoryRefusal> From<R> for ApplyFault {
    ghost use Rattle.sig_outbox.specs.declared.applying.ApplyFault.TheVariants.{Memory};

    ghost from_gives = { λ _ e. e ≡ Memory };

    fn from(_refusal: R) -> ApplyFault {
        ApplyFault::Memory
    }
}

// Whether a fact may follow what a ledger's history came to.
fn is_fitting(ledger: &Ledger, addressed: &Addressed) -> Result<bool, Memory>
    requires { IsAddressedIn (sum_in ledger.now.books).parts addressed.now }
    ensures { IfOk result (λ b. b ≡ sound.is_fitting (sum_in ledger.now.books) addressed.now.fact) }
{
    Ok(may_be_made(ledger, addressed)? && ledger.is_apt(addressed.fact())?)
}

// What is answered of a fact before it is taken in.
fn admitted(ledger: &Ledger, addressed: &Addressed) -> Result<(), ApplyFault>
    requires { IsAddressedIn (sum_in ledger.now.books).parts addressed.now }
    ensures { Answers ApplyFault.Memory result (taken_where (sound.is_fitting (sum_in ledger.now.books) addressed.now.fact)) }
{
    if is_fitting(ledger, addressed)? {
        Ok(())
    } else {
        Err(ApplyFault::Bad)
    }
}

// Takes in a fact that fits. Out of memory leaves the books as they were.
fn take(ledger: &mut Ledger, addressed: Addressed) -> Result<(), Memory>
    requires fits { Fits (sum_in ledger.old.books) addressed.fact }
    requires told { IsAddressedIn (sum_in ledger.old.books).parts addressed }
    ensures takes { OnOk result (sum_in ledger.new.books ≡ sum_of (sum_in ledger.old.books) (addressed.fact ∷ [])) }
    ensures stays { OnErr result (ledger.new.books ≡ ledger.old.books) }
{
    let prepared = ledger.ready(addressed)?;
    ledger.commit(prepared);
    Ok(())
}

/// Takes in a fact that fits what a ledger's history came to. After a refusal the books are as before.
pub(crate) fn take_in(ledger: &mut Ledger, fact: Fact) -> Result<(), ApplyFault>
    ensures fits { Answers ApplyFault.Memory result (taken_where (sound.is_fitting (sum_in ledger.old.books) fact)) }
    ensures takes { OnOk result (sum_in ledger.new.books ≡ sum_of (sum_in ledger.old.books) (fact ∷ [])) }
    ensures stays { OnErr result (ledger.new.books ≡ ledger.old.books) }
{
    let addressed = ledger.address(fact)?;
    match admitted(ledger, &addressed) {
        Ok(()) => Ok(take(ledger, addressed)?),
        Err(fault) => {
            // It is dropped by itself, so that this function has no part of its fact's many kinds.
            drop(addressed);
            Err(fault)
        }
    }
}
