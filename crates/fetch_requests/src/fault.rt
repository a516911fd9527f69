// The first fault for which a script's `fetch` makes no request (Fetch, sections 5.4 and 5.6).
ghost use Rattle.std.specs.Prelude.{◌≡◌, ◌+◌, ◌<◌, ◌^◌, nat_lt, length, sum_by};
ghost use Rattle.fetch_requests.specs.Making as spec;
ghost use Rattle.value_requests.specs.Methods.{normalized};

use policy_safelist::is_forbidden_method;
use url::Url;
use value_bytes::Bytes;
use value_requests::{
    Init, Mode, Pair, TypeFault, has_credentials, is_get_or_head, is_safelisted_method,
};
use value_text::{is_token, is_value};

/// How many bytes the method and the headers may have together.
const MOST_GIVEN: usize = 16_384;

/// How many bytes a body may have.
const MOST_BODY: usize = 65_536;

// Whether a pair is no header: its name no token, or its value none.
fn is_bad_pair(pair: &Pair) -> bool
    ensures { result ≡ spec.is_bad_pair pair.now }
{
    !(is_token(pair.name.as_slice()) && is_value(pair.value.as_slice()))
}

// The index of the first bad pair.
fn first_bad(pairs: &[Pair]) -> Option<u32>
    requires { length pairs.now < 2 ^ 32 }
    ensures { result ≡ spec.first_bad 0 pairs.now }
{
    for (index, pair) in pairs.iter().enumerate() {
        if is_bad_pair(pair) {
            return Some(index as u32);
        }
    }
    None
}

// Whether the method and the headers have more bytes than they may have.
fn are_long(method: &[u8], pairs: &[Pair]) -> bool
    ensures { result ≡ nat_lt 16384 (length method.now + sum_by spec.pair_size pairs.now) }
{
    let mut size = method.len();
    for pair in pairs {
        size = size
            .saturating_add(pair.name.len())
            .saturating_add(pair.value.len());
    }
    size > MOST_GIVEN
}

// Whether the body has more bytes than it may have.
fn is_long_body(body: &Option<Bytes>) -> bool
    ensures { result ≡ spec.is_long_body body.now }
{
    match body {
        None => false,
        Some(body) => body.len() > MOST_BODY,
    }
}

// Whether the method and the headers, or the body, have more bytes than they may have.
fn is_too_long(init: &Init) -> bool
    ensures { result ≡ spec.is_too_long init.now }
{
    are_long(init.method.as_slice(), init.headers.as_slice()) || is_long_body(&init.body)
}

// Whether the mode is no-cors.
fn is_no_cors(mode: Mode) -> bool
    ensures { result ≡ spec.is_no_cors mode }
{
    matches!(mode, Mode::NoCors)
}

// Whether the mode is navigate.
fn is_navigate(mode: Mode) -> bool
    ensures { result ≡ spec.is_navigate mode }
{
    matches!(mode, Mode::Navigate)
}

// The first fault of a request for a URL by a method, which is the normalized one of the init.
pub(crate) fn fault_of(init: &Init, method: &[u8], url: &Url) -> Option<TypeFault>
    requires method { method.now ≡ normalized init.now.method }
    requires counted { length init.now.headers < 2 ^ 32 }
    ensures { result ≡ spec.first_fault (spec.faults init.now url.now) }
{
    if has_credentials(url) {
        return Some(TypeFault::UrlCredentials);
    }
    if !is_token(init.method.as_slice()) {
        return Some(TypeFault::BadMethod);
    }
    if is_forbidden_method(init.method.as_slice()) {
        return Some(TypeFault::ForbiddenMethod);
    }
    if init.body.is_some() && is_get_or_head(method) {
        return Some(TypeFault::BodyWithGet);
    }
    if is_no_cors(init.mode) && !is_safelisted_method(method) {
        return Some(TypeFault::NoCorsMethod);
    }
    if let Some(index) = first_bad(init.headers.as_slice()) {
        return Some(TypeFault::BadHeader(index));
    }
    if is_navigate(init.mode) {
        return Some(TypeFault::NavigateMode);
    }
    if is_too_long(init) {
        return Some(TypeFault::TooLong);
    }
    None
}
