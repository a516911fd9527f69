// The start of a whole fetch: the request of what is asked for, or why there is none.
ghost use Rattle.std.specs.Prelude.{◌≡◌, ◌≢◌, ◌≤◌, ◌<◌, ◌^◌, IfErr, IfOk};
ghost use Rattle.value_requests.specs.Requests.{IsRequest};
ghost use Rattle.c_fetch.specs.Beginning.{begun_as, request_for, IsBegun};

use crate::asked::Asked;
use crate::settings::Settings;
use c_rules::Refusal;
use fetch_requests::{new_load, new_request};
use fetch_session::Session;
use std::alloc::Global;
use value_bytes::OutOfMemory;
use value_requests::{Request, TypeFault};

/// The first time, in seconds, that is too late for a fetch.
const END_OF_TIME: u64 = 281_474_976_710_656;

/// The request that a document of these settings makes of what is asked for, or its fault (Fetch, sections 5.4 and 5.6;
/// HTML, section 2.5.1). It is as before main fetch: its tainting is basic, and it was not redirected.
pub fn requested(
    alloc: Global,
    settings: &Settings,
    asked: &Asked,
) -> Result<Result<Request, TypeFault>, OutOfMemory>
    ensures request { IfOk result (λ made. made ≡ request_for settings.now asked.now) }
    ensures valid { IfOk result (λ made. IfOk made IsRequest) }
{
    match asked {
        Asked::Fetch(asked) => new_request(alloc, &asked.init, &settings.client),
        Asked::Load(asked) => new_load(alloc, &asked.init, &settings.client),
    }
}

/// Begins what is asked for, for a document of these settings, at a time in seconds, with bodies of so many bytes at
/// most (Fetch, sections 4.1, 5.4 and 5.6; HTML, section 2.5.1). There is no fetch where no request can be made of it:
/// the fault is told. `TooLate` at 2^48 seconds.
pub fn begin(
    alloc: Global,
    settings: &Settings,
    asked: &Asked,
    now: u64,
    limit: u32,
) -> Result<Result<Session, TypeFault>, Refusal>
    ensures begun { IfOk result (λ made. IsBegun made (begun_as settings.now asked.now now limit)) }
    ensures timely { IfOk result (λ _. now < 2 ^ 48) }
    ensures refused { IfErr result (λ refusal. refusal ≢ Refusal.OutOfMemory
        → (refusal ≡ Refusal.TooLate) × (2 ^ 48 ≤ now)) }
{
    if now >= END_OF_TIME {
        return Err(Refusal::TooLate);
    }
    match requested(alloc, settings, asked)? {
        Err(fault) => Ok(Err(fault)),
        Ok(request) => {
            let document = settings.document(alloc)?;
            let session = Session::start(alloc, document, request, now, limit)?;
            Ok(Ok(session))
        }
    }
}
