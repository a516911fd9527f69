// Laws of HSTS: a field is read by its grammar, its age is bounded, and which host may stand last in a list.
ghost use Rattle.book_hosts.specs.Hosts.{ExtendsExactly};
ghost use Rattle.book_hosts.specs.Reading.{AgesAreBounded, ReadsTheGrammar};

/// What is read of a field's value, from front to back, is what the grammar of RFC 6797, section 6.1, and the
/// rules for its directives say of it, and nothing else.
pub fn law_sts_grammar()
    ensures { ReadsTheGrammar }
{}

/// No field says an age above 4,294,967,295.
pub fn law_ages()
    ensures { AgesAreBounded }
{}

/// A host may stand last in a list exactly where the list with it is one of known hosts again.
pub fn law_extends()
    ensures { ExtendsExactly }
{}
