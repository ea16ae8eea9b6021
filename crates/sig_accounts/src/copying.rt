//! Copies of what is held in lists.

ghost use Rattle.std.specs.Prelude.{◌≡◌, IfOk, map};
ghost use Rattle.sig_accounts.specs.Owings.{owing_in};

use crate::account::Account;
use sig_json::{Copied, Memory};
use std::alloc::Global;

/// Equal items in the same order.
pub fn copy_list<T: Copied + Drop>(alloc: Global, list: &[T]) -> Result<Vec<T>, Memory>
    ensures { IfOk result (λ v. v.items ≡ list.now) }
{
    let mut copies = Vec::new(alloc);
    for item in list {
        let copy = item.copied(alloc)?;
        copies.push(copy)?;
    }
    Ok(copies)
}

/// Equal streams, which owe the same, in the same order.
pub fn copy_accounts(alloc: Global, accounts: &[Account]) -> Result<Vec<Account>, Memory>
    ensures { IfOk result (λ v. map owing_in v.items ≡ map owing_in accounts.now) }
{
    let mut copies = Vec::new(alloc);
    for account in accounts {
        let copy = account.copy(alloc)?;
        copies.push(copy)?;
    }
    Ok(copies)
}
