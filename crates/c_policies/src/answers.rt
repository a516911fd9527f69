// What a page sees of an answer, and which answers are blocked for their MIME type.
ghost use Rattle.std.specs.Prelude.{◌≡◌, ◌≢◌};
ghost use Rattle.c_checks.specs.Answers as answers;
ghost use Rattle.c_policies.specs.Answers as spec;
ghost use Rattle.c_policies.specs.Answers.{Shows, ShowsBy};
ghost use Rattle.c_policies.specs.Preflights.{head_of};

use c_checks::{is_nosniff_blocked, is_type_blocked, seen_response};
use c_fetch::{Asked, Settings};
use c_handle::{Handle, NO_SUCH_NUMBER, OK, OUT_OF_MEMORY, Thing, WRONG_HANDLE, code_of, told};
use std::alloc::Global;
use value_headers::HeaderList;
use value_requests::Tainting;

/// Response taintings (Fetch, section 2.2.5): of an answer of the page's own origin.
pub const TAINTING_BASIC: u32 = 0;

/// Of an answer of another origin that passed the CORS check.
pub const TAINTING_CORS: u32 = 1;

/// Of an answer of another origin, to a request in mode no-cors.
pub const TAINTING_OPAQUE: u32 = 2;

// The response tainting of a number.
fn tainting_numbered(number: u32) -> Option<Tainting>
    ensures { result ≡ spec.tainting_numbered number }
{
    match number {
        TAINTING_BASIC => Some(Tainting::Basic),
        TAINTING_CORS => Some(Tainting::Cors),
        TAINTING_OPAQUE => Some(Tainting::Opaque),
        _ => None,
    }
}

// Makes in a handle what is seen of a header list.
fn shown(
    alloc: Global,
    filtered: &mut Handle,
    settings: &Settings,
    asked: &Asked,
    list: &HeaderList,
    status: u16,
    tainting: Tainting,
    seen: &mut u32,
) -> u32
    ensures told { result ≢ OUT_OF_MEMORY → Shows (answers.seen_response settings.now asked.now tainting
        (head_of status list.now)) result filtered.old.held filtered.new.held seen.old seen.new }
    ensures out_of_memory { result ≡ OUT_OF_MEMORY → (filtered.new.held ≡ filtered.old.held) × (seen.new ≡ seen.old) }
{
    match seen_response(alloc, settings, asked, tainting, status, list) {
        Err(refusal) => code_of(refusal),
        Ok(response) => {
            let Ok(list) = response.headers.unpacked(alloc) else {
                return OUT_OF_MEMORY;
            };
            let code = filtered.fill(alloc, Thing::Headers(list));
            if code == OK {
                *seen = u32::from(response.status);
            }
            code
        }
    }
}

/// Makes in a handle the header list that a page sees of an answer to its request, and tells in `seen` the status that
/// it sees: those of the filtered response by one of the numbers `TAINTING_..` (Fetch, section 2.2.6). Basic hides
/// Set-Cookie; of CORS the safelisted and the exposed headers are seen, by the request's credentials mode; of opaque
/// nothing, and its status is 0. So is it with a redirect in redirect mode manual, by any of the numbers: it is an
/// opaque-redirect filtered response. What the handle held is freed.
///
/// `OK`; `NO_SUCH_NUMBER`; `WRONG_HANDLE`, of the client, the request or the header list; `NO_REQUEST` where none can
/// be made of what is asked for; `OUT_OF_MEMORY`. Except for `OK` the handle holds what it held, and nothing is
/// written.
#[unsafe(no_mangle)]
pub extern "C" fn fiorrudda_filtered(
    alloc: Global,
    filtered: &mut Handle,
    client: &mut Handle,
    request: &mut Handle,
    headers: &mut Handle,
    status: u16,
    tainting: u32,
    seen: &mut u32,
) -> u32
    ensures told { result ≢ OUT_OF_MEMORY → ShowsBy (spec.tainting_numbered tainting) status client.old.held
        request.old.held headers.old.held result filtered.old.held filtered.new.held seen.old seen.new }
    ensures out_of_memory { result ≡ OUT_OF_MEMORY → (filtered.new.held ≡ filtered.old.held) × (seen.new ≡ seen.old) }
    ensures client { client.new.held ≡ client.old.held }
    ensures request { request.new.held ≡ request.old.held }
    ensures headers { headers.new.held ≡ headers.old.held }
{
    let Some(tainting) = tainting_numbered(tainting) else {
        return NO_SUCH_NUMBER;
    };
    let Some(settings) = client.client() else {
        return WRONG_HANDLE;
    };
    let Some(asked) = request.request() else {
        return WRONG_HANDLE;
    };
    let Some(list) = headers.headers() else {
        return WRONG_HANDLE;
    };
    shown(
        alloc, filtered, settings, asked, list, status, tainting, seen,
    )
}

/// Whether an answer to a request is blocked for its MIME type, by its header list: one of a script that is audio,
/// image, video or CSV (Fetch, section 2.10, "should response to request be blocked due to its MIME type").
///
/// `OK` where it is blocked; `NO`, which alone gives leave; `WRONG_HANDLE`; `OUT_OF_MEMORY`.
#[unsafe(no_mangle)]
pub extern "C" fn fiorrudda_type_blocked(
    alloc: Global,
    request: &mut Handle,
    headers: &mut Handle,
) -> u32
    ensures told { result ≢ OUT_OF_MEMORY → result ≡ spec.type_blocked request.old.held headers.old.held }
    ensures request { request.new.held ≡ request.old.held }
    ensures headers { headers.new.held ≡ headers.old.held }
{
    let Some(asked) = request.request() else {
        return WRONG_HANDLE;
    };
    let Some(list) = headers.headers() else {
        return WRONG_HANDLE;
    };
    told(is_type_blocked(alloc, asked, list))
}

/// Whether an answer to a request is blocked since it says nosniff, by its header list: one of a script that is no
/// JavaScript, or of a style that is not `text/css` (Fetch, section 3.6.1, "should response to request be blocked due
/// to nosniff").
///
/// `OK` where it is blocked; `NO`, which alone gives leave; `WRONG_HANDLE`; `OUT_OF_MEMORY`.
#[unsafe(no_mangle)]
pub extern "C" fn fiorrudda_nosniff_blocked(
    alloc: Global,
    request: &mut Handle,
    headers: &mut Handle,
) -> u32
    ensures told { result ≢ OUT_OF_MEMORY → result ≡ spec.nosniff_blocked request.old.held headers.old.held }
    ensures request { request.new.held ≡ request.old.held }
    ensures headers { headers.new.held ≡ headers.old.held }
{
    let Some(asked) = request.request() else {
        return WRONG_HANDLE;
    };
    let Some(list) = headers.headers() else {
        return WRONG_HANDLE;
    };
    told(is_nosniff_blocked(alloc, asked, list))
}
