// The verdict on the answer to a CORS-preflight request (Fetch, section 4.8 "CORS-preflight fetch", steps 7 and 8).
ghost use Rattle.std.specs.Prelude.{◌≡◌, IfOk, option_copied};
ghost use Rattle.value_requests.specs.Requests.{IsRequest};
ghost use Rattle.policy_preflight.specs.Verdict as spec;

use crate::allowed::{first_unlisted, has_name};
use policy_checks::passes_cors_check;
use std::alloc::Global;
use value_bytes::{Bytes, BytesList, OutOfMemory, has_text};
use value_headers::HeaderList;
use value_lists::{Extracted, Rule, extract_values, has_wildcard};
use value_requests::{Credentials, Head, NetError, Request, is_ok_status, is_safelisted_method};
use value_text::{AUTHORIZATION, parse_digits};

/// The verdict on a preflight's answer.
#[derive(Drop)]
pub enum Checked {
    /// The request may be sent. For `age` seconds the server allows these methods and header names.
    Pass {
        age: u64,
        methods: BytesList,
        names: BytesList,
    },
    /// A check refuses.
    Refused(NetError),
}

/// The most seconds that an answer is learned for.
const MOST_AGE: u64 = 7_200;

/// The seconds that an answer without a max-age is learned for.
const DEFAULT_AGE: u64 = 5;

// The methods of Access-Control-Allow-Methods, or nothing on failure. Where it is absent there are none,
// or with the use-CORS-preflight flag the request's own.
fn methods_of(
    alloc: Global,
    request: &Request,
    found: Extracted,
) -> Result<Option<BytesList>, OutOfMemory>
    ensures { IfOk result (λ methods. methods ≡ spec.methods_of request.now found) }
{
    match found {
        Extracted::Failure => Ok(None),
        Extracted::Items(methods) => Ok(Some(methods)),
        Extracted::Absent => {
            let mut methods = BytesList::new(alloc);
            if request.use_preflight {
                methods.push(request.method.copy(alloc)?)?;
            }
            Ok(Some(methods))
        }
    }
}

// The header names of Access-Control-Allow-Headers, or nothing on failure.
fn names_of(alloc: Global, found: Extracted) -> Option<BytesList>
    ensures { result ≡ spec.names_of found }
{
    match found {
        Extracted::Failure => None,
        Extracted::Items(names) => Some(names),
        Extracted::Absent => Some(BytesList::new(alloc)),
    }
}

// The max-age in seconds.
fn age_of(found: &Extracted) -> u64
    ensures { result ≡ spec.age_of found.now }
{
    match found {
        Extracted::Items(values) => match values.as_slice() {
            [digits, ..] => parse_digits(digits.as_slice(), MOST_AGE).unwrap_or(DEFAULT_AGE),
            [] => DEFAULT_AGE,
        },
        Extracted::Absent | Extracted::Failure => DEFAULT_AGE,
    }
}

// Whether `*` counts: the list contains it, and the credentials mode is not include.
fn covers_all(credentials: Credentials, items: &[Bytes]) -> bool
    ensures { result ≡ spec.covers_all credentials items.now }
{
    !credentials.is_include() && has_wildcard(items)
}

// Whether the list contains the method, byte for byte.
fn has_method(method: &[u8], methods: &[Bytes]) -> bool
    ensures { result ≡ spec.has_method method.now methods.now }
{
    has_text(methods, method)
}

// Whether the request's method is listed, CORS-safelisted, or covered by `*`.
fn allows_method(request: &Request, methods: &[Bytes]) -> bool
    ensures { result ≡ spec.allows_method request.now methods.now }
{
    let method = request.method.as_slice();
    has_method(method, methods)
        || is_safelisted_method(method)
        || covers_all(request.credentials, methods)
}

// Whether the request has no Authorization, or it is listed: `*` does not cover it.
fn allows_authorization(request: &Request, names: &[Bytes]) -> bool
    ensures { result ≡ spec.allows_authorization request.now names.now }
{
    !request.headers.contains(AUTHORIZATION) || has_name(AUTHORIZATION, names)
}

// The first of the request's names that is not allowed: it is neither listed nor covered by `*`.
fn first_refused<'a>(
    alloc: Global,
    credentials: Credentials,
    names: &[Bytes],
    unsafe_names: &'a [Bytes],
) -> Result<Option<&'a [u8]>, OutOfMemory>
    ensures { IfOk result (λ found. option_copied found
        ≡ spec.first_refused credentials names.now unsafe_names.now) }
{
    match first_unlisted(alloc, names, unsafe_names)? {
        None => Ok(None),
        Some(_) if covers_all(credentials, names) => Ok(None),
        Some(name) => Ok(Some(name)),
    }
}

// The refusal of a header name.
fn refused_name(alloc: Global, name: &[u8]) -> Result<Checked, OutOfMemory>
    ensures { IfOk result (λ checked. checked ≡ Checked.Refused (NetError.PreflightHeader name.now)) }
{
    Ok(Checked::Refused(NetError::PreflightHeader(Bytes::of(alloc, name)?)))
}

// The verdict by the allowed methods and header names.
fn verdict_by(
    alloc: Global,
    request: &Request,
    unsafe_names: &[Bytes],
    age: u64,
    methods: BytesList,
    names: BytesList,
) -> Result<Checked, OutOfMemory>
    ensures { IfOk result (λ checked. checked ≡ spec.verdict_by request.now unsafe_names.now age methods names) }
{
    if !allows_method(request, methods.as_slice()) {
        return Ok(Checked::Refused(NetError::PreflightMethod));
    }
    if !allows_authorization(request, names.as_slice()) {
        return refused_name(alloc, AUTHORIZATION);
    }
    match first_refused(alloc, request.credentials, names.as_slice(), unsafe_names)? {
        Some(name) => refused_name(alloc, name),
        None => Ok(Checked::Pass {
            age,
            methods,
            names,
        }),
    }
}

// The verdict by the header list of an answer that passed the CORS check with an ok status.
fn verdict_of(
    alloc: Global,
    request: &Request,
    unsafe_names: &[Bytes],
    headers: &HeaderList,
) -> Result<Checked, OutOfMemory>
    ensures { IfOk result (λ checked. checked ≡ spec.verdict_of request.now unsafe_names.now headers.now) }
{
    let methods = extract_values(
        alloc,
        headers,
        b"Access-Control-Allow-Methods",
        Rule::Tokens,
    )?;
    let names = extract_values(
        alloc,
        headers,
        b"Access-Control-Allow-Headers",
        Rule::Tokens,
    )?;
    let Some(methods) = methods_of(alloc, request, methods)? else {
        return Ok(Checked::Refused(NetError::PreflightList));
    };
    let Some(names) = names_of(alloc, names) else {
        return Ok(Checked::Refused(NetError::PreflightList));
    };
    let age = age_of(&extract_values(alloc, headers, b"Access-Control-Max-Age", Rule::Digits)?);
    verdict_by(alloc, request, unsafe_names, age, methods, names)
}

/// The verdict on the head that answers the preflight of a request, for the request's serialised
/// origin and its CORS-unsafe request-header names (Fetch, section 4.8, "CORS-preflight fetch"). It is
/// refused with the first of these errors that fits:
///
/// 1. `PreflightCors`: the CORS check fails.
/// 2. `PreflightStatus`: the status is no ok status.
/// 3. `PreflightList`: Access-Control-Allow-Methods or Access-Control-Allow-Headers is no list of
///    tokens (step 7.3).
/// 4. `PreflightMethod`: the request's method is neither listed, byte for byte, nor CORS-safelisted nor
///    covered by `*` (step 7.5).
/// 5. `PreflightHeader` of `authorization`: the request has Authorization, and it is not listed (step 7.6).
/// 6. `PreflightHeader` of the first of the names that is neither listed, ASCII case aside, nor covered
///    by `*` (step 7.7).
///
/// `*` covers where it is listed and the credentials mode is not include. Where
/// Access-Control-Allow-Methods is absent, no method is listed, or with the use-CORS-preflight flag the
/// request's own. A pass tells the two lists, and for how many seconds they hold:
/// Access-Control-Max-Age, at most 7,200, and 5 where it is absent, is there twice or is no number.
pub fn verdict(
    alloc: Global,
    request: &Request,
    origin: &[u8],
    names: &BytesList,
    head: &Head,
) -> Result<Checked, OutOfMemory>
    requires { IsRequest request.now }
    ensures { IfOk result (λ checked. checked ≡ spec.verdict request.now origin.now names.now head.now) }
{
    if !passes_cors_check(origin, request.credentials.is_include(), &head.headers) {
        return Ok(Checked::Refused(NetError::PreflightCors));
    }
    if !is_ok_status(head.status) {
        return Ok(Checked::Refused(NetError::PreflightStatus));
    }
    verdict_of(alloc, request, names.as_slice(), &head.headers)
}
