//! What the door reads in the head of a request.

ghost use Rattle.std.specs.Prelude.{◌≡◌, ◌≤◌, All, map, take, length, option_map, IfSome, IfNone};
ghost use Rattle.std.specs.Str.{str_eq_ignore_ascii_case};
ghost use Rattle.httparse.specs.Spans.{IsHeaderWithin, header_bytes, span_bytes, IsWithin};
ghost use Rattle.ws_door.specs.Requests as spec;
ghost use Rattle.ws_door.specs.Requests.{request_with, Makes, HasNoHead};
ghost use Rattle.ws_door.specs.inner.Shown.{shown};

use httparse::Status;
use httparse::spans::{EMPTY_HEADER_SPAN, HeaderSpan, RequestSpans, parse_request};

/// What the door reads in a head: method and target, and of some names the first header's value,
/// without the blanks around it.
#[derive(Clone, Copy)]
pub(crate) struct Request<'a> {
    pub(crate) method: &'a [u8],
    pub(crate) target: &'a [u8],
    pub(crate) upgrade: Option<&'a [u8]>,
    pub(crate) version: Option<&'a [u8]>,
    pub(crate) key: Option<&'a [u8]>,
    pub(crate) protocols: Option<&'a [u8]>,
    pub(crate) cookies: Option<&'a [u8]>,
}

/// Whether both are one name, in letters of any case.
fn is_name(name: &[u8], other: &[u8]) -> bool
    ensures { result ≡ str_eq_ignore_ascii_case name.now other.now }
{
    name.eq_ignore_ascii_case(other)
}

/// The value of the first header of a name.
fn value_of<'a>(head: &'a [u8], headers: &[HeaderSpan], name: &[u8]) -> Option<&'a [u8]>
    requires { All (IsHeaderWithin (length head.now)) headers.now }
    ensures { option_map (λ v. v.now) result
        ≡ spec.value_of name.now (map (header_bytes head.now) headers.now) }
{
    for header in headers {
        if is_name(header.name.of(head), name) {
            return Some(header.value.of(head));
        }
    }
    None
}

/// What stands at these places of a head.
fn request_at<'a>(head: &'a [u8], spans: RequestSpans, headers: &[HeaderSpan]) -> Request<'a>
    requires method { IsWithin (length head.now) spans.method }
    requires target { IsWithin (length head.now) spans.path }
    requires headers { All (IsHeaderWithin (length head.now)) headers.now }
    ensures { shown result ≡ request_with (span_bytes head.now spans.method)
        (span_bytes head.now spans.path) (map (header_bytes head.now) headers.now) }
{
    Request {
        method: spans.method.of(head),
        target: spans.path.of(head),
        upgrade: value_of(head, headers, b"upgrade"),
        version: value_of(head, headers, b"sec-websocket-version"),
        key: value_of(head, headers, b"sec-websocket-key"),
        protocols: value_of(head, headers, b"sec-websocket-protocol"),
        cookies: value_of(head, headers, b"cookie"),
    }
}

/// Reads a head with room for 256 headers; none where no complete one stands in front.
pub(crate) fn read_request(head: &[u8]) -> Option<Request<'_>>
    ensures some { IfSome result (λ r. Makes head.now (shown r)) }
    ensures none { IfNone result (HasNoHead head.now) }
{
    let mut headers = [EMPTY_HEADER_SPAN; 256];
    match parse_request(head, &mut headers) {
        Ok(Status::Complete(spans)) => { Some(request_at(head, spans, &headers[..spans.headers])) }
        _ => None,
    }
}
