//! How a call is answered whose fact makes tokens.

ghost use Rattle.std.specs.Prelude.{◌≡◌, IfOk, IfSome, map, nat_lt};
ghost use Rattle.std.specs.List.{list_any};
ghost use Rattle.sig_json.specs.Answers.{Answers, result_map};
ghost use Rattle.sig_json.specs.declared.limits.TheConstants.{PAYLOAD_BYTES};
ghost use Rattle.sig_history.specs.Facts.{made_by};
ghost use Rattle.sig_history.specs.Sound as sound;
ghost use Rattle.sig_history.specs.Sound.{is_past};
ghost use Rattle.sig_calls.specs.Told.{making, outcome};
ghost use Rattle.sig_accounts.specs.Owings.{owing_in, stream_in};
ghost use Rattle.sig_accounts.specs.Telling.{IsAddressed};
ghost use Rattle.sig_ledger.specs.Books.{sum_in};
ghost use Rattle.sig_ledger.specs.Room.{HasRoom, IsAddressedIn};
ghost use Rattle.sig_ledger.specs.Steps.{reply_in};
ghost use Rattle.sig_token_calls.specs.Tokens.{is_full, stream_of};

use crate::payloads::largest_payload;
use sig_json::Memory;
use sig_json::limits::{LAST_NUMBER, PAYLOAD_BYTES};
use sig_ledger::{Account, Addressed, Ledger, Step};
use sig_terms::{Answer, Fact, PrepareFault};

// Whether a stream that the fact tells would get too great a number.
fn any_full(accounts: &[Account], addressed: &Addressed) -> bool
    requires { IsAddressed (map stream_in (map owing_in accounts.now)) addressed.now }
    ensures { result ≡ list_any (is_full addressed.now.fact) (map stream_of accounts.now) }
{
    for (place, account) in accounts.iter().enumerate() {
        if addressed.tells(place) && LAST_NUMBER <= account.made() {
            return true;
        }
    }
    false
}

/// Whether a token that a fact would make would get a number above 2^62. It takes no memory.
pub fn goes_past(ledger: &Ledger, addressed: &Addressed) -> bool
    requires { IsAddressedIn (sum_in ledger.now.books).parts addressed.now }
    ensures { result ≡ list_any is_past (made_by (sum_in ledger.now.books).parts addressed.now.fact) }
{
    any_full(ledger.accounts(), addressed)
}

// Whether a payload of so many bytes is too long for a token.
fn is_long(size: usize) -> bool
    ensures { result ≡ nat_lt PAYLOAD_BYTES size }
{
    size > PAYLOAD_BYTES
}

/// Whether the tokens that a fact would make may be made: none has a payload of more than 6,000 bytes or a number above 2^62.
pub fn may_be_made(ledger: &Ledger, addressed: &Addressed) -> Result<bool, Memory>
    requires { IsAddressedIn (sum_in ledger.now.books).parts addressed.now }
    ensures { IfOk result (λ b. b ≡ sound.may_be_made (made_by (sum_in ledger.now.books).parts addressed.now.fact)) }
{
    let size = largest_payload(ledger, addressed)?;
    Ok(!goes_past(ledger, addressed) && !is_long(size))
}

/// How a call is answered whose fact makes tokens: by `Long` where one of them would have a payload of more than 6,000 bytes,
/// and else as the call says.
///
/// `Number` comes exactly where a token would get a number above 2^62, and none is too long.
pub fn make(ledger: &mut Ledger, answer: Answer, fact: Fact) -> Result<Step, PrepareFault>
    ensures keeps { ledger.new.books ≡ ledger.old.books }
    ensures answers { Answers PrepareFault.Memory (result_map reply_in result)
        (outcome (making (sum_in ledger.old.books).parts answer fact)) }
    ensures room { IfOk result (λ step. IfSome step.change (HasRoom (sum_in ledger.new.books) ledger.new.room)) }
{
    let addressed = ledger.address(fact)?;
    make_told(ledger, answer, addressed)
}

/// The same, where the streams that the fact tells were found.
pub(crate) fn make_told(
    ledger: &mut Ledger,
    answer: Answer,
    addressed: Addressed,
) -> Result<Step, PrepareFault>
    requires { IsAddressedIn (sum_in ledger.old.books).parts addressed }
    ensures keeps { ledger.new.books ≡ ledger.old.books }
    ensures answers { Answers PrepareFault.Memory (result_map reply_in result)
        (outcome (making (sum_in ledger.old.books).parts answer addressed.fact)) }
    ensures room { IfOk result (λ step. IfSome step.change (HasRoom (sum_in ledger.new.books) ledger.new.room)) }
{
    let Ok(size) = largest_payload(ledger, &addressed) else {
        drop(addressed);
        return Err(PrepareFault::Memory);
    };
    if is_long(size) {
        drop(addressed);
        return Ok(Step::only(Answer::Long { size: size as u64 }));
    }
    if goes_past(ledger, &addressed) {
        drop(addressed);
        return Err(PrepareFault::Number(LAST_NUMBER + 1));
    }
    let step = ledger.step_with(answer, addressed)?;
    Ok(step)
}
