// The laws of what a fetch rests on.
ghost use Rattle.fetch_laws.specs.Views as views;

/// A law: a fetch rests on the replies of the shared book and on what the document may learn of all else,
/// where the redirect mode is follow or the destination that of a `fetch`, as of each request that a
/// document makes. It goes on from the permitted view of a head as from the head; so its run is that over
/// the two, and is the same over tapes with equal replies and equal views. The call does nothing.
pub fn law_views()
    ensures blind { views.GoesByViews }
    ensures apart { views.RunsApart }
    ensures same { views.RunsAlike }
{}

/// A law: over such tapes a fetch shows the same events, of any type `E`, where its acts show no head. The
/// call does nothing.
pub fn law_shown<E>()
    ensures { views.ShowsAlike E }
{}
