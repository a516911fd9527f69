// Whole fetches that touch nothing.
ghost use Rattle.std.specs.Prelude.{◌≡◌, ◌≢◌};
ghost use Rattle.c_fetch_calls.specs.Fetches as spec;
ghost use Rattle.c_fetch_calls.specs.Parts as parts;
ghost use Rattle.c_rules.specs.Answers.{IsUnlessMemory};
ghost use Rattle.c_fetch_calls.specs.Fetches.{Begins, GivesAct, GivesNumber, GivesRequest, GivesText};

use crate::parts::{amount_numbered, part_numbered};
use c_fetch::{Asked, Settings, amount_of, begin, request_of, text_of};
use c_handle::{
    Handle, NO, NO_REQUEST, NO_SUCH_NUMBER, OK, OUT_OF_MEMORY, Thing, WRONG_HANDLE, code_of, write,
    write_answer,
};
use c_rules::Refusal;
use fetch_acts::Act;
use fetch_session::Session;
use std::alloc::Global;
use value_bytes::Bytes;
use value_requests::TypeFault;

/// What a fetch does next: nothing, it is over.
pub const ACT_OVER: u32 = 0;

/// The book is to be asked or told: by `fiorrudda_ask`, or by `fiorrudda_input` with what another book says.
pub const ACT_ASK: u32 = 1;

/// A request is to be sent: `fiorrudda_to_send` has its bytes, and `TEXT_ORIGIN` the server's origin.
pub const ACT_SEND: u32 = 2;

/// The head of the answer is to be read: `fiorrudda_feed` takes its bytes.
pub const ACT_READ_HEAD: u32 = 3;

/// The body of the answer is to be read, by the same call: first the bytes behind the head, be there some or none.
pub const ACT_READ_BODY: u32 = 4;

/// The document is to be told of a violation of its policies.
pub const ACT_TELL: u32 = 5;

/// Memory was refused, and the fetch is lost: free it.
pub const ACT_GONE: u32 = 6;

// The index of the header that is none, or 0.
fn header_of(fault: TypeFault) -> u32
    ensures { result ≡ spec.header_of fault }
{
    match fault {
        TypeFault::BadHeader(index) => index,
        _ => 0,
    }
}

// Begins a fetch in a handle.
fn begun(
    alloc: Global,
    fetch: &mut Handle,
    settings: &Settings,
    asked: &Asked,
    now: u64,
    limit: u32,
    fault: &mut u32,
    header: &mut u32,
) -> u32
    ensures told { result ≢ OUT_OF_MEMORY → spec.BeginsOf settings.now asked.now now limit result fetch.old.held
        fetch.new.held fault.old fault.new header.old header.new }
    ensures out_of_memory { result ≡ OUT_OF_MEMORY
        → (fetch.new.held ≡ fetch.old.held) × (fault.new ≡ fault.old) × (header.new ≡ header.old) }
{
    match begin(alloc, settings, asked, now, limit) {
        Ok(Ok(session)) => fetch.fill(alloc, Thing::Fetch(session)),
        Ok(Err(why)) => {
            *fault = why.number();
            *header = header_of(why);
            NO_REQUEST
        }
        Err(refusal) => code_of(refusal),
    }
}

/// Begins in a handle the fetch of a request for a client, at a time in seconds since any fixed moment, with bodies of
/// at most `limit` bytes (Fetch, section 4.1, "main fetch"). Nothing is kept of the client and the request: each may be
/// used again. What the handle held is freed. The fetch is then done by a loop over its acts: `fiorrudda_act`
/// says what is to be done, and a call tells what came of it, until it is `ACT_OVER`.
///
/// `OK`; `WRONG_HANDLE`; `NO_REQUEST` where no request can be made of it: `fault` is then the reason, one of the
/// numbers `FAULT_..`, and `header` the index of a header that is none (Fetch, sections 5.4 and 5.6); `TOO_LATE`;
/// `OUT_OF_MEMORY`. Except for `OK` the handle holds what it held, and except for `NO_REQUEST` nothing is written.
#[unsafe(no_mangle)]
pub extern "C" fn fiorrudda_fetch(
    alloc: Global,
    fetch: &mut Handle,
    client: &mut Handle,
    request: &mut Handle,
    now: u64,
    limit: u32,
    fault: &mut u32,
    header: &mut u32,
) -> u32
    ensures told { result ≢ OUT_OF_MEMORY → Begins client.old.held request.old.held now limit result fetch.old.held
        fetch.new.held fault.old fault.new header.old header.new }
    ensures out_of_memory { result ≡ OUT_OF_MEMORY
        → (fetch.new.held ≡ fetch.old.held) × (fault.new ≡ fault.old) × (header.new ≡ header.old) }
    ensures client { client.new.held ≡ client.old.held }
    ensures request { request.new.held ≡ request.old.held }
{
    let Some(settings) = client.client() else {
        return WRONG_HANDLE;
    };
    let Some(asked) = request.request() else {
        return WRONG_HANDLE;
    };
    begun(alloc, fetch, settings, asked, now, limit, fault, header)
}

// What a fetch does next.
pub(crate) fn act_of(session: &Session) -> u32
    ensures { result ≡ spec.act_number session.now }
{
    match session.act() {
        Some(Act::Ask(_)) => ACT_ASK,
        Some(Act::Send(_)) => ACT_SEND,
        Some(Act::ReadHead) => ACT_READ_HEAD,
        Some(Act::ReadBody) => ACT_READ_BODY,
        Some(Act::Tell(_)) => ACT_TELL,
        None => match session.outcome() {
            Some(_) => ACT_OVER,
            None => ACT_GONE,
        },
    }
}

/// Tells in `act` what a fetch does next (Fetch, section 4), by one of the numbers `ACT_..`. `fiorrudda_text` and
/// `fiorrudda_number` have the act's parts, or those of the outcome of a fetch that is over.
///
/// `OK`; `WRONG_HANDLE`, and then nothing is written.
#[unsafe(no_mangle)]
pub extern "C" fn fiorrudda_act(fetch: &mut Handle, act: &mut u32) -> u32
    ensures told { GivesAct fetch.old.held act.old act.new result }
    ensures held { fetch.new.held ≡ fetch.old.held }
{
    let Some(session) = fetch.fetch() else {
        return WRONG_HANDLE;
    };
    *act = act_of(session);
    OK
}

/// Writes a text that the act of a fetch has, or its outcome, at the beginning of `room`, with no NUL after it, and
/// tells in `len` how many bytes it is. The text is one of the numbers `TEXT_..`; of a list it is that at the index
/// `at`.
///
/// `OK`; `NO` where there is none; `TOO_SHORT` where `room` has less than `len` bytes; `WRONG_HANDLE`;
/// `NO_SUCH_NUMBER`. But for `OK` nothing is written to `room`, and but for `OK` and `TOO_SHORT` nothing to `len`.
#[unsafe(no_mangle)]
pub extern "C" fn fiorrudda_text(
    fetch: &mut Handle,
    which: u32,
    at: usize,
    room: &mut [u8],
    len: &mut usize,
) -> u32
    ensures told { GivesText (parts.part_numbered which) at fetch.old.held room.old room.new len.old len.new result }
    ensures held { fetch.new.held ≡ fetch.old.held }
{
    let Some(session) = fetch.fetch() else {
        return WRONG_HANDLE;
    };
    let Some(part) = part_numbered(which) else {
        return NO_SUCH_NUMBER;
    };
    match text_of(session, part, at) {
        Some(text) => write(text, room, len),
        None => NO,
    }
}

/// Tells a number that the act of a fetch has, or its outcome: one of the numbers `NUMBER_..`.
///
/// `OK`; `NO` where there is none; `WRONG_HANDLE`; `NO_SUCH_NUMBER`. But for `OK` nothing is written.
#[unsafe(no_mangle)]
pub extern "C" fn fiorrudda_number(fetch: &mut Handle, which: u32, number: &mut u64) -> u32
    ensures told { GivesNumber (parts.amount_numbered which) fetch.old.held number.old number.new result }
    ensures held { fetch.new.held ≡ fetch.old.held }
{
    let Some(session) = fetch.fetch() else {
        return WRONG_HANDLE;
    };
    let Some(which) = amount_numbered(which) else {
        return NO_SUCH_NUMBER;
    };
    match amount_of(session, which) {
        Some(amount) => {
            *number = amount;
            OK
        }
        None => NO,
    }
}

// All bytes of the request that a fetch sends.
fn request_bytes(alloc: Global, session: &Session) -> Result<Option<Bytes>, Refusal>
    ensures { IsUnlessMemory result (spec.request_in session.now) }
{
    Ok(request_of(alloc, session)?)
}

/// Writes all bytes of the request that a fetch sends (RFC 9112, section 3) at the beginning of `room`, and tells in
/// `len` how many they are. They are for the server of `TEXT_ORIGIN`, over a connection of their own.
///
/// `OK`; `NO` where nothing is sent; `TOO_SHORT` where `room` has less than `len` bytes; `WRONG_HANDLE`;
/// `OUT_OF_MEMORY`. But for `OK` nothing is written to `room`, and but for `OK` and `TOO_SHORT` nothing to `len`.
#[unsafe(no_mangle)]
pub extern "C" fn fiorrudda_to_send(
    alloc: Global,
    fetch: &mut Handle,
    room: &mut [u8],
    len: &mut usize,
) -> u32
    ensures told { result ≢ OUT_OF_MEMORY → GivesRequest fetch.old.held room.old room.new len.old len.new result }
    ensures out_of_memory { result ≡ OUT_OF_MEMORY → (room.new ≡ room.old) × (len.new ≡ len.old) }
    ensures held { fetch.new.held ≡ fetch.old.held }
{
    let Some(session) = fetch.fetch() else {
        return WRONG_HANDLE;
    };
    write_answer(request_bytes(alloc, session), room, len)
}
