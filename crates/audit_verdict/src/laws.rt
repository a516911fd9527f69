// The laws of verdicts: an audit says `Play` exactly of the texts of plays, of each play's, and a text has one verdict.
ghost use Rattle.audit_verdict.specs.Laws as laws;

use audit_text::{law_one_reading, law_printed};
use link_traits::Link;
use play_isolation::law_isolated;
use play_laws::law_one_play;
use play_seats::SimLink;
use play_words::{law_few_calls, law_own_words};

/// A law: the verdict is `Play` exactly where the text is that of a play of the scenario, with the history that the
/// text holds; and in that play what each document sends and sees is what it would alone. The call does nothing.
pub fn law_audited()
    ensures audited { laws.IsSound }
    ensures complete { laws.IsComplete }
{
    law_isolated::<SimLink>();
}

/// A law: the verdict on the printed text of each play of a scenario over its own servers is `Play`, whatever its
/// transcripts and its history. The call does nothing.
pub fn law_own_play()
    ensures { laws.AcceptsPlays }
{
    law_printed();
    law_own_words::<SimLink>();
    law_few_calls::<SimLink>();
}

/// A law: the printed text of each play of a scenario, over any links and from a time of 2^40 at most on, holds its
/// history, so two such plays with one text have one history. The call does nothing.
pub fn law_own_history<L: Link, M: Link>()
    ensures holds { laws.HoldsHistory L.State }
    ensures one { laws.HaveOneHistory L.State M.State }
{
    law_printed();
    law_one_reading();
    law_own_words::<L>();
    law_own_words::<M>();
    law_few_calls::<L>();
    law_few_calls::<M>();
}

/// A law: a scenario and a text have one verdict. The call does nothing.
pub fn law_one_verdict()
    ensures { laws.HasOneVerdict }
{
    law_one_reading();
    law_one_play::<SimLink>();
}
