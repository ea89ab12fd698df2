//! Answers with a text.

ghost use Rattle.std.specs.Prelude.{◌≡◌, codes, OnOk};
ghost use Rattle.http_server.specs.Response.{IsBlank};
ghost use Rattle.gateway.specs.Inner.Answering.{IsAnswered};

use bytes::{BufMut, Bytes};
use http::header::{
    ACCEPT, ALLOW, CACHE_CONTROL, CONTENT_SECURITY_POLICY, CONTENT_TYPE, DATE, RETRY_AFTER,
    X_CONTENT_TYPE_OPTIONS,
};
use http::{HeaderName, HeaderValue, Request, StatusCode};
use http_server::Response;
use httpdate::HttpDate;
use std::alloc::{AllocError, Global};
use std::rt::Clock;
use std::time::SystemTime;

/// The kinds of texts.
const PLAIN: &str = "text/plain; charset=us-ascii";

const JSON: &str = "application/json";

const HTML: &str = "text/html; charset=utf-8";

/// What a page may do.
const PAGE_POLICY: &str = "default-src 'none'; connect-src 'self'; style-src 'unsafe-inline'; \
    script-src 'unsafe-inline'; form-action 'none'; frame-ancestors 'none'; base-uri 'none'";

/// Answers with this status and this text; or 503 without one, out of memory.
pub(crate) fn answer(response: &mut Response, status: StatusCode, text: &[u8])
    requires { IsBlank response.old }
    ensures { IsAnswered status text.now response.new }
{
    if fill(response, status, text, HeaderValue::from_static(PLAIN)).is_ok() {
        return;
    }
    response.clear();
    response.status = StatusCode::SERVICE_UNAVAILABLE;
}

/// Answers with a text of JSON; or 503 without one, out of memory.
pub(crate) fn answer_json(response: &mut Response, text: &[u8])
    requires { IsBlank response.old }
    ensures { IsAnswered 200 text.now response.new }
{
    let kind = HeaderValue::from_static(JSON);
    if fill(response, StatusCode::OK, text, kind).is_ok() {
        return;
    }
    response.clear();
    response.status = StatusCode::SERVICE_UNAVAILABLE;
}

/// Answers with a page, which may ask nobody but the node, and runs its own script alone.
pub(crate) fn answer_page(response: &mut Response, text: &str)
    requires { IsBlank response.old }
    ensures { IsAnswered 200 text.now response.new }
{
    let kind = HeaderValue::from_static(HTML);
    if fill(response, StatusCode::OK, text.as_bytes(), kind).is_ok()
        && response
            .add_header(
                CONTENT_SECURITY_POLICY,
                HeaderValue::from_static(PAGE_POLICY),
            )
            .is_ok()
        && response
            .add_header(X_CONTENT_TYPE_OPTIONS, HeaderValue::from_static("nosniff"))
            .is_ok()
    {
        return;
    }
    response.clear();
    response.status = StatusCode::SERVICE_UNAVAILABLE;
}

/// Whether a client wants JSON: its fields `Accept`, which are one list, name it. Weights are not looked at.
pub(crate) fn wants_json(request: &Request<Bytes>) -> bool {
    for value in request.headers().get_all(ACCEPT) {
        if value.as_bytes().split(|byte| *byte == b',').any(is_json) {
            return true;
        }
    }
    false
}

/// Whether an entry of `Accept` names JSON, in whichever case: the name ends where its parameters begin.
fn is_json(entry: &[u8]) -> bool {
    let Some(name) = entry.split(|byte| *byte == b';').next() else {
        return false;
    };
    name.trim_ascii().eq_ignore_ascii_case(JSON.as_bytes())
}

/// Answers as `answer` does, with one field more.
pub(crate) fn answer_with(
    response: &mut Response,
    status: StatusCode,
    text: &[u8],
    name: HeaderName,
    value: HeaderValue,
)
    requires { IsBlank response.old }
    ensures { IsAnswered status text.now response.new }
{
    if fill(response, status, text, HeaderValue::from_static(PLAIN)).is_ok()
        && response.add_header(name, value).is_ok()
    {
        return;
    }
    response.clear();
    response.status = StatusCode::SERVICE_UNAVAILABLE;
}

/// Answers that this path takes GET alone.
pub(crate) fn answer_use_get(response: &mut Response)
    requires { IsBlank response.old }
    ensures { IsAnswered 405 (codes "use GET\n") response.new }
{
    answer_with(
        response,
        StatusCode::METHOD_NOT_ALLOWED,
        b"use GET\n",
        ALLOW,
        HeaderValue::from_static("GET, HEAD"),
    );
}

/// Answers that this path takes POST alone.
pub(crate) fn answer_use_post(response: &mut Response)
    requires { IsBlank response.old }
    ensures { IsAnswered 405 (codes "use POST\n") response.new }
{
    answer_with(
        response,
        StatusCode::METHOD_NOT_ALLOWED,
        b"use POST\n",
        ALLOW,
        HeaderValue::from_static("POST"),
    );
}

/// Answers that the node cannot, for now.
pub(crate) fn answer_later(response: &mut Response, text: &[u8])
    requires { IsBlank response.old }
    ensures { IsAnswered 503 text.now response.new }
{
    answer_with(
        response,
        StatusCode::SERVICE_UNAVAILABLE,
        text,
        RETRY_AFTER,
        HeaderValue::from_static("1"),
    );
}

/// Adds the date to an answer, which is so many seconds after the beginning of 1970: as RFC 9110 asks of a server with a clock.
/// Where these are 0, or without memory for it, it has none.
pub(crate) fn stamp(alloc: Global, response: &mut Response, seconds: u64)
    ensures status { response.new.status ≡ response.old.status }
    ensures body { response.new.body ≡ response.old.body }
{
    if seconds == 0 {
        return;
    }
    let Ok(date) = HttpDate::from_unix_secs(seconds) else {
        return;
    };
    if let Ok(value) = HeaderValue::from_bytes(alloc, &date.to_bytes()) {
        let _ = response.add_header(DATE, value);
    }
}

/// How many seconds there are since 1970; 0 if the clock does not tell.
pub(crate) fn seconds_of<T: Clock>(rt: &T) -> u64 {
    let Ok(now) = SystemTime::now(rt) else {
        return 0;
    };
    match now.duration_since(SystemTime::UNIX_EPOCH) {
        Ok(since) => since.as_secs(),
        Err(_) => 0,
    }
}

/// Gives an answer a status, a text, and the fields that each has.
fn fill(
    response: &mut Response,
    status: StatusCode,
    text: &[u8],
    kind: HeaderValue,
) -> Result<(), AllocError>
    requires { IsBlank response.old }
    ensures { OnOk result ((response.new.status ≡ status) × (response.new.body.items ≡ text.now)) }
{
    response.status = status;
    response.body.put_slice(text)?;
    response.add_header(CACHE_CONTROL, HeaderValue::from_static("no-store"))?;
    response.add_header(CONTENT_TYPE, kind)
}
