// Who plays the fetches of a run.
ghost use Rattle.std.specs.Prelude.{◌+◌, ◌<◌, ◌^◌, ◌≤◌};
ghost use Rattle.play_definitions.specs.Fetched.{FetchCameTo};
ghost use Rattle.play_definitions.specs.Standings.{IsReady, Keeps, lent_setting, standing, world};
ghost use Rattle.play_definitions.specs.Words.{IsRequest, at_time, fetch, most_asks, over_link};

use crate::player::Player;
use book_calls::Share;
use link_traits::Link;
use value_bytes::{Boxed, OutOfMemory};
use value_requests::{Outcome, Request};

/// What plays the fetches of a run. Scripts are played with any.
pub trait Fetcher {
    /// Plays one fetch of a request inside a run, to its outcome, at a time in seconds (Fetch, section 4.1), over the
    /// wire as it is, which the caller hangs up. It makes 126 calls of the book at most. `OutOfMemory` where memory was
    /// refused: then the fetch came to some place, and an answer may be read in part.
    fn fetch<S: Share, L: Link>(
        &self,
        player: &mut Player<'_, '_, '_, '_, '_, S, L>,
        request: Request,
        now: u64,
    ) -> Result<Boxed<Outcome>, OutOfMemory>
        requires ready { IsReady S.belongs player.old }
        requires request { IsRequest request }
        requires timely { now < 2 ^ 48 }
        requires left { most_asks ≤ (world S.account L.told player.old).left }
        ensures came { FetchCameTo (over_link L.serves)
            (fetch (at_time (lent_setting player.old.lent.now) now) request)
            (standing S.account L.told player.old) result (standing S.account L.told player.new) }
        ensures few { (world S.account L.told player.old).left
            ≤ (world S.account L.told player.new).left + most_asks }
        ensures kept { Keeps S.account S.belongs player.old player.new };
}
