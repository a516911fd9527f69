// Calls that a history does not have.
ghost use Rattle.std.specs.Prelude.{◌≡◌};
ghost use Rattle.audit_replay.specs.Tapes as spec;

use book_calls::{Op, Reply};
use book_preflights::Question;

// Whether a question asks for nothing.
fn asks_nothing(question: &Question) -> bool
    ensures { result ≡ spec.asks_nothing question.now }
{
    match question.method {
        None => question.names.is_empty(),
        Some(_) => false,
    }
}

// What a stray call is replied to.
pub(crate) fn stray_reply(op: &Op) -> Reply
    ensures { result ≡ spec.stray_reply op.now }
{
    match op {
        Op::Match(_, _) => Reply::Yes,
        Op::Covers(question, _) => {
            if asks_nothing(question) {
                Reply::Yes
            } else {
                Reply::No
            }
        }
        Op::Note(_, _, _) | Op::Learn(_, _) | Op::Clear(_, _, _, _) => Reply::Done,
    }
}
