// The laws of printed histories: no two have one text, a play's text holds one, and is read in one way.
ghost use Rattle.audit_text.specs.Laws.{HoldsOne, PrintedHolds, ReadsOnce};
ghost use Rattle.audit_text.specs.OneHistory.{HasOneHistory};

/// Two histories with one text are one history, where each word of theirs has no space, each method and name is none of
/// `()`, each of a list has no comma, and each number is below 2^64. The call does nothing.
pub fn law_one_history()
    ensures { HasOneHistory }
{}

/// A law: the printed text of a play holds one history, and what it is read as is one. It rests on the law that two
/// histories with one text are one. The call does nothing.
pub fn law_one_reading()
    ensures history { HoldsOne }
    ensures reading { ReadsOnce }
{
    law_one_history();
}

/// A law: the printed text of plain transcripts and of a history that lines may tell holds that history. The call does
/// nothing.
pub fn law_printed()
    ensures { PrintedHolds }
{}
