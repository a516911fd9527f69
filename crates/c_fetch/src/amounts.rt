// What an act or an outcome has, by numbers.
ghost use Rattle.std.specs.Prelude.{◌≡◌, if◌then◌else◌};
ghost use Rattle.book_calls.specs.Ops as times;
ghost use Rattle.fetch_session.specs.Sessions.{standing_of};
ghost use Rattle.c_fetch.specs.Amounts as spec;

use book_calls::Op;
use book_preflights::{Lesson, Question};
use fetch_acts::Act;
use fetch_session::Session;
use value_requests::{BodyEnd, Hop, Outcome, Response, Violation};

/// A number that an act or an outcome may have; a test is 1 where it holds, and else 0.
#[derive(Clone, Copy, Debug, PartialEq, Eq)]
pub enum Amount {
    /// What the book is asked: 0 match, 1 note, 2 covers, 3 learn, 4 clear.
    Call,
    /// The time of that, in seconds.
    Time,
    /// How many seconds a host or an entry is known.
    Age,
    /// Whether the names under the host are known too.
    Subdomains,
    /// Whether the credentials mode is include.
    Include,
    /// Whether a preflight is sent.
    Preflight,
    /// The number of the policy that is violated, from 0 on.
    Policy,
    /// Whether that is enforced.
    Enforced,
    /// What the fetch came to: 0 a response, 1 a load that succeeded, 2 a network error.
    Outcome,
    /// The response's status.
    Status,
    /// The number of the network error.
    Error,
    /// How the body ended: 0 null, 1 whole, 2 cut, 3 failed, 4 too big.
    End,
    /// How many bytes of the body came.
    Count,
    /// How many headers are sent, or the response has.
    Headers,
    /// How many header names the preflight cache is asked for or learns.
    Names,
    /// How many methods it learns.
    Methods,
}

// 1 where something holds, and else 0.
fn one_where(holds: bool) -> u64
    ensures { result ≡ (if holds then 1 else 0) }
{
    if holds { 1 } else { 0 }
}

// The number of a question to the preflight cache.
fn question_amount(question: &Question, which: Amount) -> Option<u64>
    ensures { result ≡ spec.question_amount question.now which }
{
    match which {
        Amount::Call => Some(2),
        Amount::Include => Some(one_where(question.include)),
        Amount::Names => Some(question.names.len() as u64),
        _ => None,
    }
}

// The number of what the preflight cache learns.
fn lesson_amount(lesson: &Lesson, which: Amount) -> Option<u64>
    ensures { result ≡ spec.lesson_amount lesson.now which }
{
    match which {
        Amount::Call => Some(3),
        Amount::Include => Some(one_where(lesson.include)),
        Amount::Age => Some(lesson.age),
        Amount::Names => Some(lesson.names.len() as u64),
        Amount::Methods => Some(lesson.methods.len() as u64),
        _ => None,
    }
}

// The number of a call of the book, but for its time.
fn call_amount(op: &Op, which: Amount) -> Option<u64>
    ensures { result ≡ spec.call_amount op.now which }
{
    match (op, which) {
        (Op::Match(_, _), Amount::Call) => Some(0),
        (Op::Note(_, _, _), Amount::Call) => Some(1),
        (Op::Note(_, sts, _), Amount::Age) => Some(sts.age),
        (Op::Note(_, sts, _), Amount::Subdomains) => Some(one_where(sts.subdomains)),
        (Op::Covers(question, _), _) => question_amount(question, which),
        (Op::Learn(lesson, _), _) => lesson_amount(lesson, which),
        (Op::Clear(_, _, _, _), Amount::Call) => Some(4),
        _ => None,
    }
}

// When a call of the book is made.
fn time_of(op: &Op) -> u64
    ensures { result ≡ times.time_of op.now }
{
    match op {
        Op::Match(_, now)
        | Op::Note(_, _, now)
        | Op::Covers(_, now)
        | Op::Learn(_, now)
        | Op::Clear(_, _, _, now) => *now,
    }
}

// The number of a call of the book.
fn ask_amount(op: &Op, which: Amount) -> Option<u64>
    ensures { result ≡ spec.ask_amount op.now which }
{
    match which {
        Amount::Time => Some(time_of(op)),
        _ => call_amount(op, which),
    }
}

// The number of a request that is sent.
fn hop_amount(hop: &Hop, which: Amount) -> Option<u64>
    ensures { result ≡ spec.hop_amount hop.now which }
{
    match which {
        Amount::Preflight => Some(one_where(hop.preflight)),
        Amount::Headers => Some(hop.headers.len() as u64),
        _ => None,
    }
}

// The number of a violation.
fn violation_amount(violation: &Violation, which: Amount) -> Option<u64>
    ensures { result ≡ spec.violation_amount violation.now which }
{
    match which {
        Amount::Policy => Some(u64::from(violation.policy)),
        Amount::Enforced => Some(one_where(violation.enforced)),
        _ => None,
    }
}

// The number of an act.
fn amount_of_act(act: &Act, which: Amount) -> Option<u64>
    ensures { result ≡ spec.amount_of_act act.now which }
{
    match act {
        Act::Ask(op) => ask_amount(op.get(), which),
        Act::Send(hop) => hop_amount(hop.get(), which),
        Act::Tell(violation) => violation_amount(violation.get(), which),
        Act::ReadHead | Act::ReadBody => None,
    }
}

// The number of how a body ended.
fn end_of(body: &BodyEnd) -> u64
    ensures { result ≡ spec.end_of body.now }
{
    match body {
        BodyEnd::Null => 0,
        BodyEnd::Whole(_) => 1,
        BodyEnd::Cut(_) => 2,
        BodyEnd::Fault(_) => 3,
        BodyEnd::TooBig => 4,
    }
}

// How many bytes of a body came, where that is told.
fn count_of(body: &BodyEnd) -> Option<u64>
    ensures { result ≡ spec.count_of body.now }
{
    match body {
        BodyEnd::Whole(bytes) => Some(bytes.len() as u64),
        BodyEnd::Cut(count) | BodyEnd::Fault(count) => Some(u64::from(*count)),
        BodyEnd::Null | BodyEnd::TooBig => None,
    }
}

// The number of a response.
fn response_amount(response: &Response, which: Amount) -> Option<u64>
    ensures { result ≡ spec.response_amount response.now which }
{
    match which {
        Amount::Outcome => Some(0),
        Amount::Status => Some(u64::from(response.status)),
        Amount::Headers => Some(response.headers.len() as u64),
        Amount::End => Some(end_of(&response.body)),
        Amount::Count => count_of(&response.body),
        _ => None,
    }
}

// The number of an outcome.
fn amount_of_outcome(outcome: &Outcome, which: Amount) -> Option<u64>
    ensures { result ≡ spec.amount_of_outcome outcome.now which }
{
    match (outcome, which) {
        (Outcome::Answer(response), _) => response_amount(response, which),
        (Outcome::Loaded, Amount::Outcome) => Some(1),
        (Outcome::Error(_), Amount::Outcome) => Some(2),
        (Outcome::Error(error), Amount::Error) => Some(u64::from(error.number())),
        _ => None,
    }
}

/// The number of the act that is to be done next, or of the outcome of a fetch that is over.
pub fn amount_of(session: &Session, which: Amount) -> Option<u64>
    ensures { result ≡ spec.amount_of (standing_of session.now) which }
{
    if let Some(act) = session.act() {
        return amount_of_act(act, which);
    }
    match session.outcome() {
        None => None,
        Some(outcome) => amount_of_outcome(outcome, which),
    }
}
