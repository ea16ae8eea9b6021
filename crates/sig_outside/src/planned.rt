ghost use Rattle.std.specs.Prelude.{◌≡◌, nat_eq};
ghost use Rattle.std.specs.List.{list_any};

use sig_json::Items;

/// Whether the call of a number is among those of which something is planned.
pub(crate) fn is_planned(calls: &Items<u64>, number: u64) -> bool
    ensures { result ≡ list_any (nat_eq number) calls.now }
{
    calls.as_slice().contains(&number)
}
