// What a fetch comes to without the network.
ghost use Rattle.std.specs.Prelude.{◌≡◌, ◌≢◌, [], false, true, IfOk, OnErr};
ghost use Rattle.c_fetch_calls.specs.Judging.{HasCome, IsCut, IsJudged, IsLost, IsTold, judged};
ghost use Rattle.c_fetch_calls.specs.Private.Acts.{IsCutThere, IsDone, violation_in};
ghost use Rattle.c_handle.specs.Things.{both, held_book, held_fetch};
ghost use Rattle.fetch_session.specs.Sessions.{act_of as next_of, standing_of};

use crate::fetches::act_of;
use book_calls::Book;
use c_handle::{Found, Handle, OK, OUT_OF_MEMORY, Thing, WRONG_HANDLE};
use fetch_acts::Act;
use fetch_session::{Session, Went};
use policy_csp::Violations;
use std::alloc::Global;
use value_bytes::OutOfMemory;
use value_requests::Violation;

/// The most acts without the network that one call does.
const MOST_ALONE: usize = 65_536;

// A copy of the violation of which the document is to be told, if the fetch tells it of one next.
fn violation_of(alloc: Global, session: &Session) -> Result<Option<Violation>, OutOfMemory>
    ensures { IfOk result (λ violation. violation ≡ violation_in (next_of (standing_of session.now))) }
{
    match session.act() {
        Some(Act::Tell(violation)) => {
            let violation = violation.get();
            Ok(Some(Violation {
                policy: violation.policy,
                enforced: violation.enforced,
                directive: violation.directive,
                url: violation.url.copy(alloc)?,
            }))
        }
        _ => Ok(None),
    }
}

// Does what the fetch does next, if that needs no network; whether it rests.
fn do_one(
    alloc: Global,
    session: &mut Session,
    book: &mut Book,
    told: &mut Violations,
) -> Result<bool, OutOfMemory>
    ensures done { IfOk result (λ rests. IsDone rests (judged (standing_of session.old) book.old told.old)
        (judged (standing_of session.new) book.new told.new)) }
    ensures cut { OnErr result (IsCutThere (judged (standing_of session.old) book.old told.old) book.new) }
{
    if session.asks() {
        return match session.ask(alloc, book).went {
            Went::On => Ok(false),
            Went::NotAwaited | Went::OutOfMemory => Err(OutOfMemory),
        };
    }
    let Some(violation) = violation_of(alloc, session)? else {
        return Ok(true);
    };
    told.push(violation)?;
    match session.told(alloc) {
        Went::On => Ok(false),
        Went::NotAwaited | Went::OutOfMemory => Err(OutOfMemory),
    }
}

// Goes on as far as it comes without the network, or as one call goes.
fn go_on(
    alloc: Global,
    session: &mut Session,
    book: &mut Book,
    told: &mut Violations,
) -> Result<(), OutOfMemory>
    ensures come { IfOk result (λ _. HasCome (judged (standing_of session.old) book.old told.old)
        (judged (standing_of session.new) book.new told.new)) }
    ensures cut { OnErr result (IsCut (judged (standing_of session.old) book.old told.old) book.new) }
{
    for _times in 0..MOST_ALONE {
        if do_one(alloc, session, book, told)? {
            return Ok(());
        }
    }
    Ok(())
}

// Goes on, and tells what came.
fn judge(
    alloc: Global,
    session: &mut Session,
    book: &mut Book,
    violations: &mut Handle,
    act: &mut u32,
) -> u32
    ensures told { result ≢ OUT_OF_MEMORY → IsTold (judged (standing_of session.old) book.old []) result
        (standing_of session.new) book.new violations.new.held act.new }
    ensures lost { result ≡ OUT_OF_MEMORY → IsCut (judged (standing_of session.old) book.old []) book.new
        × (violations.new.held ≡ violations.old.held) × (act.new ≡ act.old) }
{
    let mut told = Violations::new(alloc);
    let Ok(()) = go_on(alloc, session, book, &mut told) else {
        return OUT_OF_MEMORY;
    };
    let found = Found { violations: told };
    match violations.fill(alloc, Thing::Violations(found)) {
        OK => {
            *act = act_of(session);
            OK
        }
        _ => OUT_OF_MEMORY,
    }
}

/// Has a fetch go on without the network: it asks the book, and its document is told of violations, until it must send
/// or read, or is over (Fetch, section 4.1, "main fetch"). So behind `fiorrudda_fetch` it says what a browser would
/// make of the request, and behind `fiorrudda_feed` what it would make of the answer. `act` is then what
/// `fiorrudda_act` tells: at `ACT_SEND` `TEXT_ORIGIN` and `TEXT_URL` are the URL after upgrades, and the headers are
/// those of the request, Origin, Referer and Cookie among them, or of a preflight that goes first; at `ACT_OVER`
/// `NUMBER_ERROR` is the refusal. The violations on the way, report-only ones too, are held by `violations`, and what
/// it held is freed. The calls of the book are not told. Threads that share the book hold one common lock around each
/// call that takes it.
///
/// `OK`; `WRONG_HANDLE`, of the fetch or the book; `OUT_OF_MEMORY`, and then the fetch is freed, and the book may have
/// done what it was asked on the way. Except for `OK` nothing else is changed. A call that comes to no end in 65,536
/// acts ends at `ACT_ASK` or `ACT_TELL`, and is to be made again: `violations` has those since the call before.
#[unsafe(no_mangle)]
pub extern "C" fn fiorrudda_judge(
    alloc: Global,
    fetch: &mut Handle,
    book: &mut Handle,
    violations: &mut Handle,
    act: &mut u32,
) -> u32
    ensures told { result ≢ OUT_OF_MEMORY → IsJudged fetch.old.held book.old.held violations.old.held act.old result
        fetch.new.held book.new.held violations.new.held act.new }
    ensures out_of_memory { result ≡ OUT_OF_MEMORY → IsLost (both (held_fetch fetch.old.held) (held_book book.old.held))
        violations.old.held act.old fetch.new.held book.new.held violations.new.held act.new }
{
    let Some(session) = fetch.fetch() else {
        return WRONG_HANDLE;
    };
    let Some(asked) = book.book() else {
        return WRONG_HANDLE;
    };
    match judge(alloc, session, asked, violations, act) {
        OUT_OF_MEMORY => {
            fetch.clear(alloc);
            OUT_OF_MEMORY
        }
        code => code,
    }
}
