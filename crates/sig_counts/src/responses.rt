ghost use Rattle.std.specs.Prelude.{◌≡◌, IfOk};
ghost use Rattle.sig_counts.specs.Responses as spec;

use sig_http::{Response, header, no_store};
use sig_json::{Bytes, Items, Memory};
use std::alloc::Global;

/// The response that tells these metrics. It leaves the link open, and no cache may keep it. Out of memory is the only error.
pub fn telling(alloc: Global, text: &str) -> Result<Response, Memory>
    ensures { IfOk result (λ response. response ≡ spec.telling text.now) }
{
    let body = Bytes::of(alloc, text.as_bytes())?;
    let mut headers = Vec::new(alloc);
    headers.push(header(alloc, "content-type", "text/plain; version=0.0.4")?)?;
    headers.push(no_store(alloc)?)?;
    Ok(Response {
        status: 200,
        headers: Items::of(headers),
        close: false,
        body,
    })
}
