// The law of a book's text: it is read back as that book, and no other text is read as one.
ghost use Rattle.book_text.specs.Laws.{ReadsOnlyWritten, ReadsWritten};

/// The text of each book is read back as that book, and nothing else is read as one. The call does nothing.
pub fn law_read_written()
    ensures written { ReadsWritten }
    ensures only { ReadsOnlyWritten }
{}
