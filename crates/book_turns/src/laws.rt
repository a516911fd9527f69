// Laws of a shared book: turn numbers where no call was refused, and which passes are all of them.
ghost use Rattle.book_turns.specs.Laws.{AreAllPasses, TurnsArePlaces};

/// Where no call was refused, entry i of the history has turn number i.
pub fn law_turns()
    ensures { TurnsArePlaces }
{}

/// The first pass and one for each document that it has made are all passes of the book.
pub fn law_whole()
    ensures { AreAllPasses }
{}
