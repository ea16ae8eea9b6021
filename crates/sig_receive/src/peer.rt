//! The transmitter that settings name.

ghost use Rattle.std.specs.Prelude.{◌≡◌, ◌⊎◌, ◌≢◌, IfErr, IfOk, IfSome, Err, None, Some, codes, true};
ghost use Rattle.sig_fetch.specs.Asks.{lacks_gateway};
ghost use Rattle.sig_opening.specs.declared.unread.Unread.TheVariants as unread;
ghost use Rattle.sig_rxsettings.specs.Peers.{HasItsGateway};

use sig_json::Text;
use sig_opening::Unread;
use sig_rxnode::{Peer, RxRules};
use std::alloc::Global;

/// The peer of rules; where there is none, they are refused at `poll`.
pub fn peer_of(alloc: Global, rules: &RxRules) -> Result<Peer, Unread>
    requires { IfSome rules.now.peer HasItsGateway }
    ensures named { IfOk result (λ peer. rules.now.peer ≡ Some peer) }
    ensures reached { IfOk result (λ peer. lacks_gateway peer ≢ true) }
    ensures none { IfErr result (λ cause. (cause ≡ unread.Memory) ⊎ ((cause ≡ unread.Refused (codes "poll")) × (rules.now.peer ≡ None))) }
{
    match &rules.peer {
        Some(peer) => match peer.copy(alloc) {
            Ok(peer) => Ok(peer),
            Err(_) => Err(Unread::Memory),
        },
        None => match Text::of(alloc, "poll") {
            Ok(member) => Err(Unread::Refused(member)),
            Err(_) => Err(Unread::Memory),
        },
    }
}
