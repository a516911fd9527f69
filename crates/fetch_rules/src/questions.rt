// What a fetch asks, teaches and takes back of the CORS-preflight cache (Fetch, sections 4.4, 4.8 and 4.9).
ghost use Rattle.std.specs.Prelude.{◌≡◌, IfOk};
ghost use Rattle.fetch_rules.specs.Questions as spec;
ghost use Rattle.value_requests.specs.Requests.{IsRequest};

use book_calls::Op;
use book_preflights::{Lesson, Names, Question};
use policy_checks::serialized_origin;
use policy_safelist::unsafe_names;
use std::alloc::Global;
use value_bytes::{Bytes, BytesList, OutOfMemory};
use value_requests::{Client, Request, is_safelisted_method};

// The URL by which entries are found.
fn url_text(alloc: Global, request: &Request) -> Result<Bytes, OutOfMemory>
    requires { IsRequest request.now }
    ensures { IfOk result (λ text. text ≡ spec.url_text request.now) }
{
    Bytes::of(alloc, request.current_url().as_str().as_bytes())
}

// The method that is asked for.
fn asked_method(alloc: Global, request: &Request) -> Result<Option<Bytes>, OutOfMemory>
    ensures { IfOk result (λ method. method ≡ spec.asked_method request.now) }
{
    if is_safelisted_method(request.method.as_slice()) && !request.use_preflight {
        Ok(None)
    } else {
        Ok(Some(request.method.copy(alloc)?))
    }
}

/// The question whether the preflight cache covers a request of a client at a time: its method, where that
/// is not CORS-safelisted or the use-CORS-preflight flag is set, and its CORS-unsafe request-header names
/// (Fetch, section 4.4, "HTTP fetch", step 4.1).
pub fn covers_of(
    alloc: Global,
    client: &Client,
    request: &Request,
    now: u64,
) -> Result<Op, OutOfMemory>
    requires { IsRequest request.now }
    ensures { IfOk result (λ op. op ≡ spec.covers_of client.now request.now now) }
{
    let names = unsafe_names(alloc, &request.headers)?;
    let question = Question {
        key: client.key.copy(alloc)?,
        origin: serialized_origin(alloc, request)?,
        url: url_text(alloc, request)?,
        include: request.credentials.is_include(),
        method: asked_method(alloc, request)?,
        names: Names::of(alloc, names.as_slice())?,
    };
    Ok(Op::Covers(question, now))
}

/// What the answer to a request's preflight teaches the preflight cache at a time: these methods and header
/// names, for so many seconds (Fetch, section 4.8, "CORS-preflight fetch", steps 7.12 to 7.15).
pub fn learn_of(
    alloc: Global,
    client: &Client,
    request: &Request,
    age: u64,
    methods: BytesList,
    names: BytesList,
    now: u64,
) -> Result<Op, OutOfMemory>
    requires { IsRequest request.now }
    ensures { IfOk result (λ op. op ≡ spec.learn_of client.now request.now age methods names now) }
{
    let lesson = Lesson {
        key: client.key.copy(alloc)?,
        origin: serialized_origin(alloc, request)?,
        url: url_text(alloc, request)?,
        include: request.credentials.is_include(),
        age,
        methods: Names::of(alloc, methods.as_slice())?,
        names: Names::of(alloc, names.as_slice())?,
    };
    Ok(Op::Learn(lesson, now))
}

/// That the preflight cache forgets what it has under a client's key of a request's origin and current URL (Fetch,
/// section 4.1, "main fetch", step 12, where HTTP fetch with a preflight returns a network error).
pub fn clear_of(
    alloc: Global,
    client: &Client,
    request: &Request,
    now: u64,
) -> Result<Op, OutOfMemory>
    requires { IsRequest request.now }
    ensures { IfOk result (λ op. op ≡ spec.clear_of client.now request.now now) }
{
    let key = client.key.copy(alloc)?;
    let origin = serialized_origin(alloc, request)?;
    let url = url_text(alloc, request)?;
    Ok(Op::Clear(key, origin, url, now))
}
