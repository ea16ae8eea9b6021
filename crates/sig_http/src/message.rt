ghost use Rattle.std.specs.Prelude.{◌≡◌, IfOk};

use sig_json::{Bytes, Copied, Items, Memory, Text, copy_items, copy_optional};
use std::alloc::Global;

/// A request.
pub struct Request {
    /// The method, a token (RFC 9110, section 9.1).
    pub method: Text,
    /// The target up to its first `?`, as it stands.
    pub path: Text,
    /// The target after its first `?`, as it stands; empty where there is none.
    pub query: Text,
    /// Of a request that was read, the text after `Bearer ` in its first field `authorization` (RFC 6750, section 2.1),
    /// and none where there is no such text or it isn't UTF-8. Of one that is written, the whole value of that field.
    pub bearer: Option<Text>,
    /// The link closes after the response: the request is HTTP/1.0, or says `connection: close` (RFC 9112, section 9.6).
    pub close: bool,
    pub body: Bytes,
}

impl Drop for Request {
    fn drop(self) {
        let Request {
            method,
            path,
            query,
            bearer,
            close: _,
            body,
        } = self;
        drop(method);
        drop(path);
        drop(query);
        drop(bearer);
        drop(body);
    }
}

/// A field of a response that is written.
#[derive(Drop)]
pub struct Header {
    pub name: Text,
    pub value: Text,
}

/// A response.
pub struct Response {
    /// The status code (RFC 9110, section 15).
    pub status: u16,
    /// The fields that are written beside `connection` and `content-length`, in order. A response that was read has none
    /// here: the product reads no field of a response but those that say how its body ends and whether the link closes.
    pub headers: Items<Header>,
    /// The link closes after the response.
    pub close: bool,
    pub body: Bytes,
}

impl Drop for Response {
    fn drop(self) {
        let Response {
            status: _,
            headers,
            close: _,
            body,
        } = self;
        drop(headers);
        drop(body);
    }
}

/// What a reader of requests gives.
#[derive(Drop)]
pub enum Got {
    /// The next request.
    Request(Request),
    /// The source ended before the first byte of a message.
    End,
}

impl Request {
    /// An equal request. Out of memory is its only error.
    pub fn copy(&self, alloc: Global) -> Result<Request, Memory>
        ensures { IfOk result (λ r. r ≡ self.now) }
    {
        Ok(Request {
            method: self.method.copy(alloc)?,
            path: self.path.copy(alloc)?,
            query: self.query.copy(alloc)?,
            bearer: copy_optional(alloc, &self.bearer)?,
            close: self.close,
            body: self.body.copy(alloc)?,
        })
    }
}

impl Copied for Header {
    fn copied(&self, alloc: Global) -> Result<Header, Memory> {
        Ok(Header {
            name: self.name.copy(alloc)?,
            value: self.value.copy(alloc)?,
        })
    }
}

impl Response {
    /// An equal response. Out of memory is its only error.
    pub fn copy(&self, alloc: Global) -> Result<Response, Memory>
        ensures { IfOk result (λ r. r ≡ self.now) }
    {
        Ok(Response {
            status: self.status,
            headers: copy_items(alloc, &self.headers)?,
            close: self.close,
            body: self.body.copy(alloc)?,
        })
    }
}
