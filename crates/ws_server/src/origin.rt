//! Which pages may connect.
ghost use Rattle.std.specs.Prelude.{◌↔◌, ℕ, List, IsTrue, Contains, map, string_bytes};
ghost use Rattle.std.specs.Char.{is_ascii_digit};
ghost use Rattle.std.specs.List.{AllPass};
ghost use Rattle.ws_server.specs.Origins.{IsPort, IsAtPort, IsOfThisMachine, IsAdmitted};

use http::{Request, Response, StatusCode};
use std::alloc::Global;
use tungstenite::Callback;
use tungstenite::handshake::server::ErrorResponse;

/// What a page gets that may not connect: the status 403 (RFC 9110, 15.5.4) and a sentence. The handshake answers so; where the stream's
/// output waits, whoever has the stream sends this.
pub const FORBIDDEN: &str =
    "HTTP/1.1 403 Forbidden\r\ncontent-length: 69\r\n\r\na page of this origin may not connect: --origin names those that may\n";

/// The pages that may connect, by their origins as a browser tells them (RFC 6454).
#[derive(Clone, Copy)]
pub enum Origins<'a> {
    /// All.
    All,
    /// Those of this machine, and those of an origin that is named here; `*` names all. Who tells none is no page, and may connect.
    Named(&'a [String]),
}

impl Origins<'_> {
    // Whether whoever asks so may connect: each origin that is told, if one is, is one that may.
    fn admit<T>(self, request: &Request<T>) -> bool {
        let Origins::Named(named) = self else {
            return true;
        };
        for origin in request.headers().get_all("origin") {
            if !is_admitted(named, origin.as_bytes()) {
                return false;
            }
        }
        true
    }
}

/// Whether pages of an origin may connect, where these are named. Takes time in proportion to the names.
pub fn is_admitted(named: &[String], origin: &[u8]) -> bool
    ensures { IsTrue result ↔ IsAdmitted (map string_bytes named.now) origin.now }
{
    is_of_this_machine(origin) || is_named(named, b"*") || is_named(named, origin)
}

// Whether it is one of these.
fn is_named(named: &[String], origin: &[u8]) -> bool
    ensures { IsTrue result ↔ Contains (map string_bytes named.now) origin.now }
{
    for name in named {
        if name.as_bytes() == origin {
            return true;
        }
    }
    false
}

// Whether it is the origin of a page of this machine.
fn is_of_this_machine(origin: &[u8]) -> bool
    ensures { IsTrue result ↔ IsOfThisMachine origin.now }
{
    is_at_port(b"http://127.0.0.1", origin)
        || is_at_port(b"http://localhost", origin)
        || is_at_port(b"http://[::1]", origin)
}

// Whether it is this one, at some port.
fn is_at_port(page: &[u8], origin: &[u8]) -> bool
    ensures { IsTrue result ↔ IsAtPort page.now origin.now }
{
    match origin.strip_prefix(page) {
        Some(port) => is_port(port),
        None => false,
    }
}

// Whether it is nothing, or a colon and digits.
fn is_port(bytes: &[u8]) -> bool
    ensures { IsTrue result ↔ IsPort bytes.now }
{
    match bytes.split_first() {
        Some((first, digits)) => *first == b':' && are_digits(digits),
        None => true,
    }
}

fn are_digits(bytes: &[u8]) -> bool
    ensures { IsTrue result ↔ AllPass is_ascii_digit bytes.now }
{
    for byte in bytes {
        if !byte.is_ascii_digit() {
            return false;
        }
    }
    true
}

// Looks at a handshake before it is answered.
#[derive(Drop)]
pub(crate) struct Door<'a> {
    pub(crate) alloc: Global,
    pub(crate) origins: Origins<'a>,
}

impl Callback for Door<'_> {
    fn on_request(
        self,
        request: &Request<()>,
        response: Response<()>,
    ) -> Result<Response<()>, ErrorResponse> {
        if self.origins.admit(request) {
            return Ok(response);
        }
        let sentence = match FORBIDDEN.split_once("\r\n\r\n") {
            Some((_, it)) => String::from_str(self.alloc, it).ok(),
            None => None,
        };
        let mut refused = Response::new(self.alloc, sentence);
        *refused.status_mut() = StatusCode::FORBIDDEN;
        Err(refused)
    }
}
