//! Which events a stream delivers (OpenID Shared Signals Framework 1.0, section 8.1.1).

ghost use Rattle.std.specs.Prelude.{◌≡◌};
ghost use Rattle.sig_event.specs.Events.{uri_of};
ghost use Rattle.sig_terms.specs.Fitting as fitting;

use sig_event::Event;
use sig_terms::{StreamConf, is_published_uri, is_requested};

// Whether transmitters publish events of its type. The type of an event of CAEP or RISC is known, so that its URI isn't looked
// up, which would be done for each stream.
#[tactic(auto, using(crate::proofs::EventLemmas::published_known))]
fn is_published(event: &Event) -> bool
    ensures { result ≡ fitting.is_published_uri (uri_of event.now) }
{
    event.is_published() || is_published_uri(event.uri())
}

/// Whether a stream of this configuration delivers an event. It takes no memory.
pub(crate) fn delivers_event(conf: &StreamConf, event: &Event) -> bool
    ensures { result ≡ fitting.delivers conf.now (uri_of event.now) }
{
    is_published(event) && is_requested(event.uri(), &conf.requested)
}
