// The shared book is asked.
ghost use Rattle.std.specs.Prelude.{◌≡◌, None};
ghost use Rattle.fetch_session.specs.Asking as spec;
ghost use Rattle.fetch_session.specs.Asking.{BookAfter};
ghost use Rattle.fetch_session.specs.Sessions.{act_of, standing_of};

use crate::session::{Session, Waiting, Went};
use book_calls::{Book, Reply};
use fetch_acts::{Act, Input};
use std::alloc::Global;

/// What a call of the book came to: how the call went, and what the book replied, if it did what it was asked.
#[derive(Clone, Copy, Debug, PartialEq, Eq)]
pub struct Replied {
    pub went: Went,
    pub reply: Option<Reply>,
}

// No reply came.
fn unanswered(went: Went) -> Replied
    ensures { result ≡ record { went = went; reply = None } }
{
    Replied { went, reply: None }
}

impl Session {
    /// Whether the book is to be asked.
    pub fn asks(&self) -> bool
        ensures { result ≡ spec.asks (standing_of self.now) }
    {
        match self.act() {
            Some(Act::Ask(op)) => op.get().is_in_range(),
            _ => false,
        }
    }

    /// Asks the book what the act asks it for. Where memory is refused the fetch is gone; the book is as it is after
    /// the operation where there is a reply, and else as it was.
    pub fn ask(&mut self, alloc: Global, book: &mut Book) -> Replied
        ensures went { spec.Asks book.old (standing_of self.old) result.went (standing_of self.new) }
        ensures book { BookAfter (act_of (standing_of self.old)) result.went book.old book.new result.reply }
    {
        if !self.asks() {
            return unanswered(Went::NotAwaited);
        }
        let Some(waiting) = self.lift() else {
            return unanswered(Went::NotAwaited);
        };
        let Waiting {
            fetching,
            act,
            reader,
            bodies,
        } = waiting;
        drop(reader);
        let Act::Ask(op) = act else {
            return unanswered(Went::NotAwaited);
        };
        match book.apply(alloc, op.get()) {
            Ok(reply) => Replied {
                went: self.go_on(alloc, fetching, bodies, Input::Replied(reply)),
                reply: Some(reply),
            },
            Err(_) => unanswered(Went::OutOfMemory),
        }
    }
}
