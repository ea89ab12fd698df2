//! Requests that are denied before the service sees them.

ghost use Rattle.std.specs.Prelude.{◌≡◌, ◌≤◌, [], ◌∷◌, ◌++◌, OnOk, option_copied, length};
ghost use Rattle.std.specs.List.{prefix_len};
ghost use Rattle.http_server.specs.Response.{IsBlank, IsResponse, fields_of};
ghost use Rattle.service.specs.Denials.{field_of, is_dotted, ends_at, is_localhost, is_own_host, is_foreign_host, is_foreign_origin};
ghost use Rattle.service.specs.Denials.{is_foreign_site, is_repeated, is_ambiguous, denial_of, uncached, IsDenied};
ghost use Rattle.service.specs.declared.denial.Denial.TheVariants.{Target, Host, Origin};

use crate::denial::Denial;
use bytes::{BufMut, Bytes};
use http::header::{CACHE_CONTROL, CONNECTION, CONTENT_TYPE, HOST, ORIGIN};
use http::{HeaderName, HeaderValue, Request, StatusCode};
use http_server::Response;
use http1::text::eq_ignore_case;
use std::alloc::AllocError;

/// The field by which a browser tells of which place a page is.
const SITE: &str = "sec-fetch-site";

/// The kind of a text.
const PLAIN: &str = "text/plain; charset=us-ascii";

/// Why a request is denied, if it is.
pub(crate) fn denial_of(request: &Request<Bytes>) -> Option<Denial>
    ensures { result ≡ denial_of request.now }
{
    let uri = request.uri();
    if uri.scheme().is_some() || uri.authority().is_some() {
        return Some(Denial::Target);
    }
    let host = field_of(request, HOST);
    if is_foreign_host(host) {
        return Some(Denial::Host);
    }
    if is_ambiguous(request) || is_foreign_origin(host, field_of(request, ORIGIN)) {
        return Some(Denial::Origin);
    }
    let site = field_of(request, HeaderName::from_static(SITE));
    if is_foreign_site(site) {
        Some(Denial::Origin)
    } else {
        None
    }
}

/// The first value of a field, if the request has it.
fn field_of(request: &Request<Bytes>, name: HeaderName) -> Option<&[u8]>
    ensures { option_copied result ≡ field_of request.now name }
{
    match request.headers().get(name) {
        Some(value) => Some(value.as_bytes()),
        None => None,
    }
}

/// Whether the request says more than once of which place its page is. A browser says it once, and who reads a
/// request of two takes the one or the other.
fn is_ambiguous(request: &Request<Bytes>) -> bool
    ensures { result ≡ is_ambiguous request.now }
{
    is_repeated(request, ORIGIN) || is_repeated(request, HeaderName::from_static(SITE))
}

/// Whether the request has more than one field of this name.
fn is_repeated(request: &Request<Bytes>, name: HeaderName) -> bool
    ensures { result ≡ is_repeated request.now name }
{
    request.headers().get_all(name).iter().count() > 1
}

fn is_foreign_host(host: Option<&[u8]>) -> bool
    ensures { result ≡ is_foreign_host (option_copied host.entry) }
{
    match host {
        Some(host) => !is_own_host(host),
        None => false,
    }
}

/// Whether a host is an address or `localhost`, with a port or without.
fn is_own_host(host: &[u8]) -> bool
    ensures { result ≡ is_own_host host.now }
{
    if !host.is_empty() && host[0] == b'[' {
        return true;
    }
    let dotted = dotted_len(host);
    (dotted > 0 && ends_at(host, dotted)) || is_localhost(host)
}

fn is_localhost(host: &[u8]) -> bool
    ensures { result ≡ is_localhost host.now }
{
    host.len() >= 9 && eq_ignore_case(&host[..9], b"localhost") && ends_at(host, 9)
}

/// Whether a port, or nothing, follows so many bytes.
fn ends_at(host: &[u8], len: usize) -> bool
    requires { len ≤ length host.now }
    ensures { result ≡ ends_at host.now len }
{
    len == host.len() || host[len] == b':'
}

fn dotted_len(host: &[u8]) -> usize
    ensures value { result ≡ prefix_len is_dotted host.now }
    ensures within { result ≤ length host.now }
{
    host.iter().take_while(|b| is_dotted(**b)).count()
}

/// Whether a byte may be in an IPv4 address.
fn is_dotted(b: u8) -> bool
    ensures { result ≡ is_dotted b }
{
    b.is_ascii_digit() || b == b'.'
}

/// Whether a page of another place than this host makes the request.
fn is_foreign_origin(host: Option<&[u8]>, origin: Option<&[u8]>) -> bool
    ensures { result ≡ is_foreign_origin (option_copied host.entry) (option_copied origin.entry) }
{
    let Some(origin) = origin else {
        return false;
    };
    let Some(host) = host else {
        return true;
    };
    origin.len() < 7 || &origin[..7] != b"http://".as_slice() || &origin[7..] != host
}

fn is_foreign_site(site: Option<&[u8]>) -> bool
    ensures { result ≡ is_foreign_site (option_copied site.entry) }
{
    match site {
        Some(site) => site == b"cross-site".as_slice() || site == b"same-site".as_slice(),
        None => false,
    }
}

/// Fills the answer to a request that is denied. Fails only if out of memory.
pub(crate) fn deny(denial: Denial, response: &mut Response) -> Result<(), AllocError>
    requires { IsBlank response.old }
    ensures { OnOk result (IsDenied denial response.new) }
{
    match denial {
        Denial::Target => deny_target(response),
        Denial::Host => deny_host(response),
        Denial::Origin => deny_origin(response),
    }
}

fn deny_target(response: &mut Response) -> Result<(), AllocError>
    requires { IsBlank response.old }
    ensures { OnOk result (IsDenied Target response.new) }
{
    response.status = StatusCode::BAD_REQUEST;
    put(response, CONNECTION, HeaderValue::from_static("close"), b"")
}

fn deny_host(response: &mut Response) -> Result<(), AllocError>
    requires { IsBlank response.old }
    ensures { OnOk result (IsDenied Host response.new) }
{
    response.status = StatusCode::MISDIRECTED_REQUEST;
    put(
        response,
        CONTENT_TYPE,
        HeaderValue::from_static(PLAIN),
        b"host\n",
    )
}

fn deny_origin(response: &mut Response) -> Result<(), AllocError>
    requires { IsBlank response.old }
    ensures { OnOk result (IsDenied Origin response.new) }
{
    response.status = StatusCode::FORBIDDEN;
    put(
        response,
        CONTENT_TYPE,
        HeaderValue::from_static(PLAIN),
        b"origin\n",
    )
}

/// Adds a body, that no cache is to keep the answer, and one field more.
fn put(
    response: &mut Response,
    name: HeaderName,
    value: HeaderValue,
    body: &[u8],
) -> Result<(), AllocError>
    ensures { OnOk result (IsResponse response.old.status (fields_of response.old ++ uncached ∷ (name, value.bytes) ∷ [])
        (response.old.body.items ++ body.now) response.new) }
{
    response.body.put_slice(body)?;
    response.add_header(CACHE_CONTROL, HeaderValue::from_static("no-store"))?;
    response.add_header(name, value)
}
