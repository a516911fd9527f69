// Laws of the faults of a link: where they show in a run, and how many there are.
ghost use Rattle.play_faults.specs.Laws as laws;

use link_traits::Link;

/// A law: in a document's run the link fails at most once in each fetch and each load, and its outcome shows it.
/// Without an answer that is the network error of the link; where a body broke off it is the response with that body,
/// or under an integrity text that is not empty the network error of integrity. No other outcome tells a failure, and
/// none is left to be shown where the run ends. So over each tape, and each beginning of one, there are at least as
/// many faults as outcomes that tell one; and at most as many as outcomes that tell or may hide one, and one more that
/// no outcome shows yet. The call does nothing.
pub fn law_faults_shown()
    ensures placed { laws.FaultsPlaced }
    ensures shown { laws.FaultsShown }
{}

/// A law: over any link its count of faults rises by just as many as the tape of a run has, also where the run ended
/// for memory, and so by at least as many as a document is told of. (A count stops at 2^64 - 1.) Of a document's run
/// that came to its end the tape has at least as many faults as outcomes tell, and at most as many as outcomes tell or
/// may hide. The call does nothing.
pub fn law_faults_counted<L: Link>()
    ensures ran { laws.FaultsCounted L.State }
    ensures began { laws.FaultsCountedCut L.State }
    ensures told { laws.ToldCounted L.State }
    ensures shown { laws.RanShown L.State }
{}
