// The laws of what is printed of a play.
ghost use Rattle.play_words.specs.Laws as laws;

use link_traits::Link;

/// A law: where texts give a document's URLs, each of its calls of the shared book has words, and nothing else that is
/// printed of its run as it is has an LF, whatever comes of its acts. So in a play of such documents with valid scripts
/// that begins at a time of 2^40 at most each transcript is plain, and the operation of each entry of the history is in
/// range and has words. The call does nothing.
pub fn law_own_words<L: Link>()
    ensures events { laws.EventsPlain }
    ensures plays { laws.PlaysTold L.State }
{}

/// A law: a document calls the shared book at most 129,024 times, whatever comes of its acts; so a play's history has
/// at most that many entries for each document. The call does nothing.
pub fn law_few_calls<L: Link>()
    ensures runs { laws.CallsFew }
    ensures plays { laws.PlaysFew L.State }
{}
