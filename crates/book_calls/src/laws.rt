// Laws of the book's histories: how one grows, and on which entries the replies to a document rest.
ghost use Rattle.book_calls.specs.Entries.{GrowsByAnEntry, IsLastOfItsDocument};
ghost use Rattle.book_calls.specs.Past.{PastReplies, PastsAnswer};

use book_preflights::{law_clears, law_lessons};

/// A legal history grows by an entry with the next turn and the book's reply.
pub fn law_grown()
    ensures { GrowsByAnEntry }
{}

/// An entry more is the last of its own document, and leaves the entries of every other one.
pub fn law_own()
    ensures { IsLastOfItsDocument }
{}

/// The book after the notes of a history, and what was learnt and cleared under one key, replies to the
/// operations of that key as the book after all of it.
pub fn law_past()
    ensures { PastReplies }
{
    law_lessons();
    law_clears();
}

/// In a history that is legal from a book, each reply to an operation of a document whose operations are all
/// of one key is that of the book after the operation's past: the notes before it, and what was learnt and
/// cleared under that key. So what else documents of other keys did tells it nothing.
pub fn law_pasts()
    ensures { PastsAnswer }
{
    law_past();
}
