// Laws of isolation: on what alone a document's run rests.
ghost use Rattle.play_isolation.specs.Laws as laws;

use book_calls::law_pasts;
use link_traits::Link;

/// A law: a document's run over a tape is that over the replies of the shared book and over what the document may learn
/// of the answers to its requests: of each head its permitted view. The call does nothing.
pub fn law_apart()
    ensures { laws.RunsApart }
{}

/// A law: a document calls the shared book with ops of its key alone, whatever comes of its acts; where its script is
/// valid and its run begins at a time of 2^40 at most, they are in range. The call does nothing.
pub fn law_own_calls()
    ensures key { laws.CallsOwn }
    ensures range { laws.CallsInRange }
{}

/// A law: where a history is legal from an opening book and the calls of a document's run are its entries in it, the
/// run is what the document would do alone: over what it may learn of the answers to its requests, each reply being
/// that of the book after the call's past, which is what was noted of known hosts and what was learnt and cleared
/// under the document's key. The call does nothing.
pub fn law_alone()
    ensures { laws.RunsAlone }
{
    law_pasts();
}

/// A law: two worlds show a document the same where the pasts of its calls are equal, and the views of the answers to
/// its requests. So it sees nothing else of them: of runs over two tapes in two histories, and of two plays over any
/// links, with equal known hosts, cookies and times, and whatever other servers, documents and limits. The call does
/// nothing.
pub fn law_two_worlds<L: Link, M: Link>()
    ensures runs { laws.RunsAlike }
    ensures plays { laws.WorldsAlike L.State M.State }
{
    law_pasts();
}

/// A law: in a play over any links what each document sends and sees is what it would alone. The call does nothing.
pub fn law_isolated<L: Link>()
    ensures { laws.PlaysAlone L.State }
{
    law_pasts();
}
