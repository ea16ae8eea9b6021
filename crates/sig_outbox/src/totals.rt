//! What all streams come to together.

ghost use Rattle.std.specs.Prelude.{◌≡◌, ◌-◌, ◌^◌, length, min};
ghost use Rattle.std.specs.List.{sum_by};
ghost use Rattle.sig_accounts.specs.Owings.{Balance};

use sig_ledger::Account;

/// How many tokens some streams owe together, or 2^64 - 1 where they are more.
pub(crate) fn owed_together(accounts: &[Account]) -> u64
    ensures { result ≡ min (sum_by (λ (b : Balance). length b.owing.owed) accounts.now) (2 ^ 64 - 1) }
{
    let mut owed: u64 = 0;
    for account in accounts {
        owed = owed.saturating_add(account.owed_count());
    }
    owed
}
