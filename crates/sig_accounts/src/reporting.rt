//! What is kept of the tokens of a stream that were reported as faulty.

ghost use Rattle.std.specs.Prelude.{◌≡◌, ◌++◌, IfOk, OnOk, option_map};
ghost use Rattle.std.specs.List.{find, slice_get};
ghost use Rattle.sig_history.specs.Refused as refused;
ghost use Rattle.sig_accounts.specs.Reported.{is_number, place_said, reported_as, reported_by, reported_in};

use crate::account::Account;
use crate::debt::{Debt, Said};
use crate::kept_refusal::KeptRefusal;
use sig_history::limits::CODE_BYTES;
use sig_json::{Memory, Text};
use sig_terms::SettledItem;
use std::alloc::Global;
use std::collections::VecDeque;

impl Said {
    // The place of the publication that it tells, where it tells one.
    fn place(&self) -> Option<usize>
        ensures { result ≡ place_said self.now }
    {
        match self {
            Said::Published { place } => Some(*place),
            Said::Verified { .. } | Said::Updated { .. } => None,
        }
    }
}

// A code, where it is short enough to be kept.
fn kept_code(alloc: Global, code: &Text) -> Result<Option<Text>, Memory>
    ensures { IfOk result (λ c. c ≡ refused.kept_code code.now) }
{
    if code.as_str().len() <= CODE_BYTES {
        return Ok(Some(code.copy(alloc)?));
    }
    Ok(None)
}

// The first of these.
fn first_of(debts: &[Debt]) -> Option<&Debt>
    ensures { option_map (λ d. d.now) result ≡ slice_get debts.now 0 }
{
    debts.get(0)
}

impl Account {
    /// What is kept of items that were settled: of each that has a code and whose token the stream owes, in order.
    pub fn reported(
        &self,
        alloc: Global,
        items: &[SettledItem],
    ) -> Result<VecDeque<KeptRefusal>, Memory>
        ensures { IfOk result (λ q. q.items ≡ reported_in self.now.owing.stream.conf.stream self.now.owing.owed items.now) }
    {
        let mut refusals = VecDeque::new(alloc);
        for item in items {
            self.put_reported(alloc, item, &mut refusals)?;
        }
        Ok(refusals)
    }

    // Puts what is kept of an item at the end, where something is.
    fn put_reported(
        &self,
        alloc: Global,
        item: &SettledItem,
        refusals: &mut VecDeque<KeptRefusal>,
    ) -> Result<(), Memory>
        ensures { OnOk result (refusals.new.items ≡ refusals.old.items
            ++ reported_by self.now.owing.stream.conf.stream (find (is_number item.now.number) self.now.owing.owed) item.now.code) }
    {
        let Some(code) = &item.code else {
            return Ok(());
        };
        let Some(debt) = self.debt(item.number) else {
            return Ok(());
        };
        let refusal = self.refusal_of(alloc, debt, code)?;
        refusals.push_back(refusal)?;
        Ok(())
    }

    // What is kept of a token that was reported with a code.
    fn refusal_of(&self, alloc: Global, debt: &Debt, code: &Text) -> Result<KeptRefusal, Memory>
        ensures { IfOk result (λ k. k ≡ reported_as self.now.owing.stream.conf.stream code.now debt.now) }
    {
        let stream = self.name().share()?;
        Ok(KeptRefusal {
            stream,
            number: debt.number,
            place: debt.said.place(),
            code: kept_code(alloc, code)?,
            time: debt.time,
        })
    }

    // The token of this number that it owes. It is looked for by halves.
    fn debt(&self, number: u64) -> Option<&Debt>
        ensures { option_map (λ d. d.now) result ≡ find (is_number number) self.now.owing.owed }
    {
        first_of(self.owed_between(number, number))
    }
}
