// What came of the acts of a fetch.
ghost use Rattle.std.specs.Prelude.{◌≡◌};
ghost use Rattle.c_fetch_calls.specs.Inputs as spec;
ghost use Rattle.c_fetch_calls.specs.Inputs.{IsBookAsked, IsFed, IsSaid};
ghost use Rattle.fetch_session.specs.Sessions.{standing_of};

use book_calls::Reply;
use c_handle::{Handle, NO_SUCH_NUMBER, NOT_AWAITED, OK, OUT_OF_MEMORY, WRONG_HANDLE};
use fetch_session::{Session, Went};
use std::alloc::Global;

/// What came of an act: the request was sent.
pub const INPUT_SENT: u32 = 0;

/// The document was told of the violation.
pub const INPUT_TOLD: u32 = 1;

/// The server ended the answer, or closed the connection: no more bytes come.
pub const INPUT_ENDED: u32 = 2;

/// The connection failed: the request could not be sent, or no more bytes can be received.
pub const INPUT_FAILED: u32 = 3;

/// A book of the caller's own replied yes, to a question.
pub const INPUT_YES: u32 = 4;

/// It replied no.
pub const INPUT_NO: u32 = 5;

/// It was told.
pub const INPUT_DONE: u32 = 6;

/// What came of an act that awaits no bytes, or the end of them.
#[derive(Clone, Copy, Debug, PartialEq, Eq)]
pub enum Said {
    Sent,
    Told,
    Ended,
    Failed,
    Replied(Reply),
}

// What a number says.
fn said_numbered(number: u32) -> Option<Said>
    ensures { result ≡ spec.said_numbered number }
{
    match number {
        INPUT_SENT => Some(Said::Sent),
        INPUT_TOLD => Some(Said::Told),
        INPUT_ENDED => Some(Said::Ended),
        INPUT_FAILED => Some(Said::Failed),
        INPUT_YES => Some(Said::Replied(Reply::Yes)),
        INPUT_NO => Some(Said::Replied(Reply::No)),
        INPUT_DONE => Some(Said::Replied(Reply::Done)),
        _ => None,
    }
}

// The code of how a call went.
fn code_of_went(went: Went) -> u32
    ensures code { result ≡ spec.code_of_went went }
    ensures back { spec.went_told result ≡ went }
{
    match went {
        Went::On => OK,
        Went::NotAwaited => NOT_AWAITED,
        Went::OutOfMemory => OUT_OF_MEMORY,
    }
}

// Tells a fetch what came.
fn say(alloc: Global, session: &mut Session, said: Said) -> Went
    ensures { spec.Says said (standing_of session.old) result (standing_of session.new) }
{
    match said {
        Said::Sent => session.sent(alloc),
        Said::Told => session.told(alloc),
        Said::Ended => session.ended(alloc),
        Said::Failed => session.failed(alloc),
        Said::Replied(reply) => session.replied(alloc, reply),
    }
}

/// Tells a fetch what came of its act (Fetch, section 4), by one of the numbers `INPUT_..`. `INPUT_SENT` follows
/// `ACT_SEND`; `INPUT_TOLD` follows `ACT_TELL`; `INPUT_ENDED` follows `ACT_READ_HEAD` and `ACT_READ_BODY`;
/// `INPUT_FAILED` follows these three; `INPUT_YES` and `INPUT_NO` follow `ACT_ASK` where it is a question, and
/// `INPUT_DONE` where not.
///
/// `OK`; `NOT_AWAITED` where it does not follow, and then the fetch stands where it stood; `WRONG_HANDLE`;
/// `NO_SUCH_NUMBER`; `OUT_OF_MEMORY`, and then the fetch is gone: its act is `ACT_GONE`.
#[unsafe(no_mangle)]
pub extern "C" fn fiorrudda_input(alloc: Global, fetch: &mut Handle, input: u32) -> u32
    ensures { IsSaid (spec.said_numbered input) fetch.old.held result fetch.new.held }
{
    let Some(session) = fetch.fetch() else {
        return WRONG_HANDLE;
    };
    match said_numbered(input) {
        None => NO_SUCH_NUMBER,
        Some(said) => code_of_went(say(alloc, session, said)),
    }
}

/// Hands a fetch the next bytes of the answer, in any piece, be it empty, and tells in `used` how many of them were
/// read (RFC 9112, sections 4, 6 and 7). Where a head ends in the piece, the bytes behind it are not read: they are the
/// first of the body, and are handed in again when the act is `ACT_READ_BODY`, even if there are none; `ACT_ASK` and
/// `ACT_TELL` may come before. At `ACT_SEND` and `ACT_OVER` unread bytes are of no use, and the connection is closed.
///
/// `OK`; `NOT_AWAITED` where no bytes are read now, and then the fetch stands where it stood; `WRONG_HANDLE`;
/// `OUT_OF_MEMORY`, and then the fetch is gone: its act is `ACT_GONE`. But for `OK` none are read; for `WRONG_HANDLE`
/// nothing is written.
#[unsafe(no_mangle)]
pub extern "C" fn fiorrudda_feed(
    alloc: Global,
    fetch: &mut Handle,
    bytes: &[u8],
    used: &mut usize,
) -> u32
    ensures { IsFed bytes.now fetch.old.held used.old result fetch.new.held used.new }
{
    let Some(session) = fetch.fetch() else {
        return WRONG_HANDLE;
    };
    let fed = session.feed(alloc, bytes);
    *used = fed.used;
    code_of_went(fed.went)
}

// The number of a reply.
fn reply_number(reply: Reply) -> u32
    ensures { result ≡ spec.reply_number reply }
{
    match reply {
        Reply::Yes => INPUT_YES,
        Reply::No => INPUT_NO,
        Reply::Done => INPUT_DONE,
    }
}

// Tells a reply, if there is one.
fn tell_reply(answer: Option<Reply>, reply: &mut u32)
    ensures { spec.IsReply answer reply.old reply.new }
{
    if let Some(answer) = answer {
        *reply = reply_number(answer);
    }
}

/// Has a fetch ask a book what its act asks for, or tell it that, and goes on from what the book replies, which is told
/// in `reply`: `INPUT_YES`, `INPUT_NO` or `INPUT_DONE` (Fetch, section 4.9; RFC 6797, section 8). Threads that share
/// the book hold one common lock around each call that takes it.
///
/// `OK`; `NOT_AWAITED` where the act asks no book, and then the fetch stands where it stood and the book is as it was;
/// `WRONG_HANDLE`; `OUT_OF_MEMORY`, and then the fetch is lost: its act is `ACT_GONE`. Then the book may have done what
/// it was asked, and `reply` is told; else the book is as it was, and nothing is written to `reply`: set it to 0 before
/// the call. With `NOT_AWAITED` and `WRONG_HANDLE` nothing is written to it.
#[unsafe(no_mangle)]
pub extern "C" fn fiorrudda_ask(
    alloc: Global,
    fetch: &mut Handle,
    book: &mut Handle,
    reply: &mut u32,
) -> u32
    ensures { IsBookAsked fetch.old.held book.old.held reply.old result fetch.new.held book.new.held reply.new }
{
    let Some(session) = fetch.fetch() else {
        return WRONG_HANDLE;
    };
    let Some(book) = book.book() else {
        return WRONG_HANDLE;
    };
    let replied = session.ask(alloc, book);
    tell_reply(replied.reply, reply);
    code_of_went(replied.went)
}
