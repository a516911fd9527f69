// Laws of the preflight cache: a change leaves a cache, and the entries of other keys as they were.
ghost use Rattle.book_preflights.specs.Keys.{ExtendsExactly};
ghost use Rattle.book_preflights.specs.Laws.{ChangesKeepCaches, ClearsKeepOtherKeys, LessonsKeepOtherKeys};

/// A lesson teaches the entries of its own key, and leaves those of every other key.
pub fn law_lessons()
    ensures { LessonsKeepOtherKeys }
{}

/// Clearing takes entries out of its own key, and leaves those of every other key.
pub fn law_clears()
    ensures { ClearsKeepOtherKeys }
{}

/// Every cache is sorted by the bytes of its keys, and has at most 64 entries of each.
pub fn law_caches()
    ensures { ChangesKeepCaches }
{}

/// An entry may stand last in a cache exactly where the list with it is a cache again.
pub fn law_extends()
    ensures { ExtendsExactly }
{}
