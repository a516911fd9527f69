// The acts that a fetch asks for, and the inputs that say what came of them.
ghost use Rattle.std.specs.Prelude.{◌≡◌, if◌then◌else◌, not};
ghost use Rattle.fetch_acts.specs.Process as spec;
ghost use Rattle.book_calls.specs.Ops.{is_answer, is_question};

use book_calls::{Op, Reply};
use value_bytes::{Boxed, Shared};
use value_requests::{BodyEnd, Head, Hop, Violation};

/// What a fetch asks for next.
#[derive(Drop)]
pub enum Act {
    /// The shared book is to be asked, or told.
    Ask(Shared<Op>),
    /// The request is to be sent.
    Send(Boxed<Hop>),
    /// The head of the answer to the last request is to be read.
    ReadHead,
    /// The body of that answer is to be read.
    ReadBody,
    /// The document is to be told of a violation of its policies.
    Tell(Boxed<Violation>),
}

/// What came of an act.
#[derive(Drop)]
pub enum Input {
    /// The book replied.
    Replied(Reply),
    /// The request was sent.
    Sent,
    /// The final head of the answer came.
    HeadIs(Head),
    /// What came is no head, or the answer ended before one.
    HeadBad,
    /// The heads of the answer are longer than their limit.
    HeadLong,
    /// The body came to its end.
    BodyIs(BodyEnd),
    /// The link failed.
    Fault,
    /// The document was told.
    Told,
}

// Whether the op asks a question.
fn is_question(op: &Op) -> bool
    ensures { result ≡ is_question op.now }
{
    matches!(op, Op::Match(_, _) | Op::Covers(_, _))
}

// Whether the reply answers one.
fn is_answer(reply: Reply) -> bool
    ensures { result ≡ is_answer reply }
{
    matches!(reply, Reply::Yes | Reply::No)
}

// Whether the reply is of the op's kind.
fn is_reply_to(op: &Op, reply: Reply) -> bool
    ensures { result ≡ spec.is_reply_to op.now reply }
{
    if is_question(op) {
        is_answer(reply)
    } else {
        !is_answer(reply)
    }
}

/// Whether the input may follow the act: a reply of the op's kind follows `Ask`, which is yes or no to a
/// question and done to what is told; `Sent` and `Fault` follow `Send`; `HeadIs`, `HeadBad`, `HeadLong` and
/// `Fault` follow `ReadHead`; `BodyIs` follows `ReadBody`, and `Told` follows `Tell`. It takes no memory.
pub fn fits(act: &Act, input: &Input) -> bool
    ensures { result ≡ spec.fits act.now input.now }
{
    match (act, input) {
        (Act::Ask(op), Input::Replied(reply)) => is_reply_to(op.get(), *reply),
        (Act::Send(_), Input::Sent | Input::Fault) => true,
        (Act::ReadHead, Input::HeadIs(_) | Input::HeadBad | Input::HeadLong | Input::Fault) => true,
        (Act::ReadBody, Input::BodyIs(_)) => true,
        (Act::Tell(_), Input::Told) => true,
        _ => false,
    }
}
