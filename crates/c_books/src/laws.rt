// What no call shows.
ghost use Rattle.c_books.specs.Books.{AreReasons};

// Each reason has a number of its own, which the header tells.
pub fn law_reasons()
    ensures { AreReasons }
{}
