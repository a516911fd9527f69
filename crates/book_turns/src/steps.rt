// The rule of the table, and what its steps tell.
ghost use Rattle.book_turns.specs.Private.Rule.{Keeps, first_view};
ghost use Rattle.book_turns.specs.Private.Steps.{Draws, Looks, Names, Notes, Passes, forked_left, forked_right};
ghost use Rattle.book_turns.specs.Private.Steps.{joined, spent};

use crate::desk::Desk;
use crate::view::View;
use atomic_table::{Join, Play, Split, TableRule};
use book_calls::Book;
use std::snapshot::Snapshot;

/// The rule that holds between any two steps. The key is the opening book.
pub struct Turns;

impl TableRule<Option<Desk>, View, Snapshot<Book>> for Turns {
    ghost holds = { λ _. Keeps };

    ghost first = { λ key. first_view key.value };
}

/// A ticket is drawn.
pub struct Draw;

impl Play<Option<Desk>, View> for Draw {
    ghost then = { Draws };
}

/// A look at the ticket that is served.
pub struct Look;

impl Play<Option<Desk>, View> for Look {
    ghost then = { Looks };
}

/// What the turn adds to the history is noted.
pub struct Note;

impl Play<Option<Desk>, View> for Note {
    ghost then = { Notes };
}

/// The turn is passed.
pub struct Pass;

impl Play<Option<Desk>, View> for Pass {
    ghost then = { Passes };
}

/// The document of the next pass is named.
pub struct Name;

impl Play<Option<Desk>, View> for Name {
    ghost then = { Names };
}

/// A new pass is made.
pub struct Fork;

impl Split<View> for Fork {
    ghost left = { forked_left };

    ghost right = { forked_right };
}

/// A pass comes back.
pub struct End;

impl Join<View> for End {
    ghost both = { joined };

    ghost spent = { spent };
}
