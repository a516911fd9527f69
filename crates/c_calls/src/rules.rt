// Rules on an answer, on a referrer and on a body.
ghost use Rattle.std.specs.Prelude.{◌≡◌, ◌≢◌};
ghost use Rattle.c_calls.specs.Calls.{cors_check, resource_policy};
ghost use Rattle.c_handle.specs.Codes.{told};
ghost use Rattle.c_calls.specs.Referrers.{IsReferrer};
ghost use Rattle.c_rules.specs.Bodies.{matches_integrity};

use crate::policies::policy_numbered;
use c_handle::{
    Handle, NO_SUCH_NUMBER, OUT_OF_MEMORY, WRONG_HANDLE, told, write_answer, yes_or_no,
};
use c_rules::{is_kept_by_resource_policy, matches_integrity, told_referrer};
use policy_checks::passes_cors_check;
use std::alloc::Global;
use value_text::is_wildcard;

/// "CORS check" of an answer's header list, for the serialised origin of a request and whether its credentials mode is
/// include (Fetch, section 4.10). The origin is compared byte for byte; `null` is that of a request that was tainted by
/// redirects, and `*` is no origin. It is for mode cors, where a URL of the request is of another origin than the page:
/// a page reads what all came of its own origin without it, and never an answer to mode no-cors of another.
///
/// `OK` where the answer passes; `NO`; `WRONG_HANDLE`.
#[unsafe(no_mangle)]
pub extern "C" fn fiorrudda_cors_check(origin: &[u8], include: bool, headers: &mut Handle) -> u32
    ensures told { result ≡ cors_check origin.now include headers.old.held }
    ensures held { headers.new.held ≡ headers.old.held }
{
    let Some(list) = headers.headers() else {
        return WRONG_HANDLE;
    };
    yes_or_no(!is_wildcard(origin) && passes_cors_check(origin, include, list))
}

/// Whether the answer of a URL is kept from a page's requests in mode no-cors (Fetch, section 3.7, "cross-origin
/// resource policy check", of the page's origin and the URL's).
///
/// `OK` where it is kept from them; `NO`, which alone gives leave; `WRONG_HANDLE`; `NOT_A_URL` and `NOT_HTTP`, of the
/// page or of the URL; `OUT_OF_MEMORY`.
#[unsafe(no_mangle)]
pub extern "C" fn fiorrudda_resource_policy(
    alloc: Global,
    page: &[u8],
    url: &[u8],
    headers: &mut Handle,
) -> u32
    ensures told { result ≢ OUT_OF_MEMORY → result ≡ resource_policy page.now url.now headers.old.held }
    ensures held { headers.new.held ≡ headers.old.held }
{
    let Some(list) = headers.headers() else {
        return WRONG_HANDLE;
    };
    told(is_kept_by_resource_policy(alloc, page, url, list))
}

/// Writes the referrer that a policy tells the URL `target` of the page `source` at the beginning of `room`, with no
/// NUL after it, and tells in `len` how many bytes it is (Referrer Policy, section 8.3, "determine request's
/// Referrer"). The policy is one of the numbers `REFERRER_..`.
///
/// `OK`; `NO` where none is told; `TOO_SHORT` where `room` has less than `len` bytes; `NO_SUCH_NUMBER`; `NOT_A_URL` and
/// `NOT_HTTP`, of the page or of the URL; `OUT_OF_MEMORY`. But for `OK` nothing is written to `room`, and but for `OK`
/// and `TOO_SHORT` nothing to `len`.
#[unsafe(no_mangle)]
pub extern "C" fn fiorrudda_referrer(
    alloc: Global,
    policy: u32,
    source: &[u8],
    target: &[u8],
    room: &mut [u8],
    len: &mut usize,
) -> u32
    ensures told { result ≢ OUT_OF_MEMORY
        → IsReferrer policy source.now target.now room.old room.new len.old len.new result }
    ensures out_of_memory { result ≡ OUT_OF_MEMORY → (room.new ≡ room.old) × (len.new ≡ len.old) }
{
    match policy_numbered(policy) {
        None => NO_SUCH_NUMBER,
        Some(policy) => write_answer(told_referrer(alloc, policy, source, target), room, len),
    }
}

/// Whether a whole body matches an integrity text (Subresource Integrity, section 3.3, "do bytes match metadataList").
/// A text without valid metadata matches every body.
///
/// `OK` where it matches; `NO`; `OUT_OF_MEMORY`.
#[unsafe(no_mangle)]
pub extern "C" fn fiorrudda_integrity(alloc: Global, metadata: &[u8], body: &[u8]) -> u32
    ensures { result ≢ OUT_OF_MEMORY → result ≡ told (matches_integrity metadata.now body.now) }
{
    told(matches_integrity(alloc, metadata, body))
}
