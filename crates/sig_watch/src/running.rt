//! One link that is served in a thread of its own.

ghost use Rattle.std.specs.Prelude.{◌≡◌, IfErr, IfOk};
ghost use Rattle.std.specs.Thread.{IsSync};

use crate::Host;
use crate::endings::Endings;
use crate::visit::Visitor;
use std::snapshot::Snapshot;
use std::sync::Wait;
use std::thread::{Promise, PromisedHandle, Scope, Threads};

/// A link that was served and ended, and its log.
#[derive(Drop)]
pub struct Gone<V, G> {
    pub visit: V,
    pub log: G,
}

/// A link as it came, under its number, and what serves it.
#[derive(Drop)]
pub struct Arrived<H, V> {
    pub number: u32,
    pub host: Snapshot<H>,
    pub came: Snapshot<V>,
}

impl<H: Host, V: Visitor> Promise<Gone<V, H::Log>> for Arrived<H, V> {
    ghost kept_by = { λ p r. H.serves p.host.value p.number r.log (V.seen_of p.came.value) (V.seen_of r.visit) × ((V.seen_of r.visit).is_errand ≡ (V.seen_of p.came.value).is_errand) };
}

/// A link that is served.
#[derive(Drop)]
pub struct Running<H: Host, V: Visitor + Drop> {
    pub number: u32,
    pub child: PromisedHandle<Gone<V, H::Log>, Arrived<H, V>>,
    ghost same: { child.promise.number ≡ number },
}

// Serves a link, which ends, and tells so.
fn serve_owned<R: Wait, H: Host, V: Visitor>(
    rt: &R,
    host: &H,
    endings: &Endings,
    number: u32,
    visit: V,
) -> Gone<V, H::Log>
    ensures serves { H.serves host.now number result.log (V.seen_of visit) (V.seen_of result.visit) }
    ensures kind { (V.seen_of result.visit).is_errand ≡ (V.seen_of visit).is_errand }
{
    let mut visit = visit;
    let log = visit.serve(rt, host, number);
    endings.tell(rt, number);
    Gone { visit, log }
}

/// Serves a link in a thread of the scope; or at once, where the system makes none.
pub fn start<'s, E, R: Threads + Wait + Sync, H: Host + Sync, V: Visitor + Send + Drop>(
    scope: &Scope<'s, E>,
    rt: &'s R,
    host: &'s H,
    endings: &'s Endings,
    number: u32,
    visit: V,
) -> Result<Running<H, V>, Gone<V, H::Log>>
where
    V: 's,
    H: 's,
    H::Log: 's,
    requires shared { IsSync R.row × IsSync H.row }
    ensures ok { IfOk result (λ r. (r.number ≡ number) × (r.child.promise.host.value ≡ host.now) × (r.child.promise.came.value ≡ visit)) }
    ensures err { IfErr result (λ gone. H.serves host.now number gone.log (V.seen_of visit) (V.seen_of gone.visit)) }
    ensures kind { IfErr result (λ gone. (V.seen_of gone.visit).is_errand ≡ (V.seen_of visit).is_errand) }
{
    let promise = Arrived {
        number,
        host: Snapshot::of(host),
        came: Snapshot::of(&visit),
    };
    match scope.spawn_with(
        promise,
        move || serve_owned(rt, host, endings, number, visit),
    ) {
        Ok(child) => Ok(Running { number, child }),
        Err(refused) => Err((refused.value)()),
    }
}

/// Waits for a link to end.
pub fn finish<R: Threads, H: Host, V: Visitor + Drop>(
    rt: &R,
    running: Running<H, V>,
) -> Gone<V, H::Log>
    ensures serves { H.serves running.child.promise.host.value running.number result.log (V.seen_of running.child.promise.came.value) (V.seen_of result.visit) }
    ensures kind { (V.seen_of result.visit).is_errand ≡ (V.seen_of running.child.promise.came.value).is_errand }
{
    let Running { number: _, child } = running;
    child.join(rt)
}
