// The preflight of a request, and the verdict on its answer.
ghost use Rattle.std.specs.Prelude.{◌≡◌, ◌≢◌, Result};
ghost use Rattle.c_policies.specs.Preflights.{IsPreflight, IsRefusedName, IsVerdict, IsVerdictOn};
ghost use Rattle.c_rules.specs.Answers.{IsUnlessMemory};
ghost use Rattle.c_rules.specs.declared.refusal.Refusal.{Refusal as Refused};
ghost use Rattle.policy_preflight.specs.declared.answer.Checked.{Checked as Verdict};

use c_checks::{preflight_bytes, preflight_verdict, refused_name};
use c_handle::{Handle, NO, OK, OUT_OF_MEMORY, WRONG_HANDLE, code_of, write_answer};
use c_rules::Refusal;
use policy_preflight::Checked;
use std::alloc::Global;

/// Writes all bytes of the CORS-preflight request of a client's request at the beginning of `room`, and tells in `len`
/// how many they are (Fetch, section 4.1, "main fetch", step 12, and section 4.8, "CORS-preflight fetch"; RFC 9112,
/// section 3). They are for the server of the request's URL. No book is asked, and no policy.
///
/// It is not looked at whether main fetch blocks the request before, by its port, as mixed content or by a policy, or
/// upgrades its URL.
///
/// `OK`; `NO`, which alone gives leave to send none, where the request's mode, method and headers ask for no preflight;
/// `TOO_SHORT` where `room` has less than `len` bytes; `WRONG_HANDLE`; `NO_REQUEST` where none can be made of what is
/// asked for; `NOT_HTTP`, of its URL; `OUT_OF_MEMORY`. But for `OK` nothing is written to `room`, and but for `OK` and
/// `TOO_SHORT` nothing to `len`.
#[unsafe(no_mangle)]
pub extern "C" fn fiorrudda_preflight(
    alloc: Global,
    client: &mut Handle,
    request: &mut Handle,
    room: &mut [u8],
    len: &mut usize,
) -> u32
    ensures told { result ≢ OUT_OF_MEMORY
        → IsPreflight client.old.held request.old.held room.old room.new len.old len.new result }
    ensures out_of_memory { result ≡ OUT_OF_MEMORY → (room.new ≡ room.old) × (len.new ≡ len.old) }
    ensures client { client.new.held ≡ client.old.held }
    ensures request { request.new.held ≡ request.old.held }
{
    let Some(settings) = client.client() else {
        return WRONG_HANDLE;
    };
    let Some(asked) = request.request() else {
        return WRONG_HANDLE;
    };
    write_answer(preflight_bytes(alloc, settings, asked), room, len)
}

// Tells a verdict.
fn tell(answer: Result<Checked, Refusal>, error: &mut u32, age: &mut u64) -> u32
    ensures told { (expected : Result Verdict Refused) → IsUnlessMemory answer expected → result ≢ OUT_OF_MEMORY
        → IsVerdict expected error.old error.new age.old age.new result }
    ensures out_of_memory { result ≡ OUT_OF_MEMORY → (error.new ≡ error.old) × (age.new ≡ age.old) }
{
    match answer {
        Err(refusal) => code_of(refusal),
        Ok(Checked::Refused(reason)) => {
            *error = reason.number();
            NO
        }
        Ok(Checked::Pass { age: learnt, .. }) => {
            *age = learnt;
            OK
        }
    }
}

/// Tells the verdict on an answer to the preflight of a client's request, of a status and a header list (Fetch, section
/// 4.8, "CORS-preflight fetch", steps 7 and 8): for a pass, in `age`, for how many seconds the preflight cache learns
/// it; for a refusal, in `error`, the network error, one of the numbers `ERROR_PREFLIGHT_..`. It also answers where the
/// request asks for no preflight.
///
/// `OK` where it passes; `NO` where it is refused; `WRONG_HANDLE`; `NO_REQUEST` where none can be made of what is asked
/// for; `OUT_OF_MEMORY`. But for `OK` nothing is written to `age`, and but for `NO` nothing to `error`.
#[unsafe(no_mangle)]
pub extern "C" fn fiorrudda_verdict(
    alloc: Global,
    client: &mut Handle,
    request: &mut Handle,
    headers: &mut Handle,
    status: u16,
    error: &mut u32,
    age: &mut u64,
) -> u32
    ensures told { result ≢ OUT_OF_MEMORY → IsVerdictOn status client.old.held request.old.held headers.old.held
        error.old error.new age.old age.new result }
    ensures out_of_memory { result ≡ OUT_OF_MEMORY → (error.new ≡ error.old) × (age.new ≡ age.old) }
    ensures client { client.new.held ≡ client.old.held }
    ensures request { request.new.held ≡ request.old.held }
    ensures headers { headers.new.held ≡ headers.old.held }
{
    let Some(settings) = client.client() else {
        return WRONG_HANDLE;
    };
    let Some(asked) = request.request() else {
        return WRONG_HANDLE;
    };
    let Some(list) = headers.headers() else {
        return WRONG_HANDLE;
    };
    tell(
        preflight_verdict(alloc, settings, asked, status, list),
        error,
        age,
    )
}

/// Writes the name of the header, in lower case, for which an answer to the preflight of a client's request is refused,
/// at the beginning of `room`, with no NUL after it, and tells in `len` how many bytes it is (Fetch, section 4.8,
/// "CORS-preflight fetch", steps 7.6 and 7.7): where `fiorrudda_verdict` tells `ERROR_PREFLIGHT_HEADER`.
///
/// `OK`; `NO` where it is not refused for a header; `TOO_SHORT` where `room` has less than `len` bytes; `WRONG_HANDLE`;
/// `NO_REQUEST` where none can be made of what is asked for; `OUT_OF_MEMORY`. But for `OK` nothing is written to
/// `room`, and but for `OK` and `TOO_SHORT` nothing to `len`.
#[unsafe(no_mangle)]
pub extern "C" fn fiorrudda_refused_name(
    alloc: Global,
    client: &mut Handle,
    request: &mut Handle,
    headers: &mut Handle,
    status: u16,
    room: &mut [u8],
    len: &mut usize,
) -> u32
    ensures told { result ≢ OUT_OF_MEMORY → IsRefusedName status client.old.held request.old.held headers.old.held
        room.old room.new len.old len.new result }
    ensures out_of_memory { result ≡ OUT_OF_MEMORY → (room.new ≡ room.old) × (len.new ≡ len.old) }
    ensures client { client.new.held ≡ client.old.held }
    ensures request { request.new.held ≡ request.old.held }
    ensures headers { headers.new.held ≡ headers.old.held }
{
    let Some(settings) = client.client() else {
        return WRONG_HANDLE;
    };
    let Some(asked) = request.request() else {
        return WRONG_HANDLE;
    };
    let Some(list) = headers.headers() else {
        return WRONG_HANDLE;
    };
    write_answer(
        refused_name(alloc, settings, asked, status, list),
        room,
        len,
    )
}
