//! Laws over the definitions: each function's contract is the law, and nothing calls it.

ghost use Rattle.sig_http.specs.Laws.{HasFewBeside, HasOneRequest, HasOneResponse, IsSoonDecided, NoCacheKeeps, ReadsBackRequest, ReadsBackResponse};

/// Two outcomes that the same bytes decide of a request are one, message and bytes after it. With the contract of
/// `read_request` the answer depends on the bytes of a source alone, and not on the pieces in which it gives them.
pub fn bytes_decide_one_request()
    ensures { HasOneRequest }
{}

/// The same of a response and `read_response`.
pub fn bytes_decide_one_response()
    ensures { HasOneResponse }
{}

/// A request that `write_request` writes is read back, whatever bytes follow it, by the law above as nothing else.
///
/// That holds of each request whose method is a token, whose target is one with no `?` in its path and no fragment and is
/// not in the absolute form, whose values have no control byte but the tab, and whose head and body are within the limits.
/// Its bearer is read of the whole value that was written, and `close` is yes, since a request that is written asks for
/// closing.
pub fn a_written_request_is_read_back()
    ensures { ReadsBackRequest }
{}

/// The same of a response and `write_response`.
///
/// That holds of each response of a status from 100 to 999, with no body where that is 1xx, 204 or 304, whose fields are none
/// of `connection`, `content-length` and `transfer-encoding`, and whose fields with those that the writer adds, head and body
/// are within the limits. The fields aren't kept by a reader.
pub fn a_written_response_is_read_back()
    ensures { ReadsBackResponse }
{}

/// A chunked body that is whole has at most as many bytes beside its content, in its chunk lines, line ends and trailer
/// section, as a body of the greatest length in chunks of `CHUNK_BYTES` bytes, with the longest last line and trailer
/// section.
pub fn a_chunked_body_has_few_bytes_beside_its_content()
    ensures { HasFewBeside }
{}

/// Bytes that don't decide a chunked body yet are at most those and as many as its content may have. `read_request` and
/// `read_response` take a further piece of a source only after such bytes.
pub fn a_chunked_body_is_soon_decided()
    ensures { IsSoonDecided }
{}

/// No cache may keep the response to a request that can't be read, nor that to one that the routes refuse (RFC 9111, section
/// 5.2.2.5).
pub fn no_cache_keeps_a_refusal()
    ensures { NoCacheKeeps }
{}
