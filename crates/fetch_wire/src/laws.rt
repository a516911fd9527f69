// The law of exchanges: what comes of an act depends on what answers only by the request that the act sends.
ghost use Rattle.fetch_wire.specs.ExchangeLaws.{ExchangeAlike};

use link_traits::Link;

/// What comes of an act over a link depends on what answers only by the request that the act sends: where
/// two answer it alike in each state, the same may come of it by both.
pub fn law_exchange_alike<L: Link>()
    ensures { ExchangeAlike L.State }
{}
