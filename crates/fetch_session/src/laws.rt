// The law of pieces: how an answer is cut does not matter to a fetch.
ghost use Rattle.fetch_session.specs.CutLaws.{PiecesJoin};

use link_http1::{law_one_end, law_one_head};

/// How an answer is cut does not matter: a piece comes to what its two parts come to, one behind the other. So two ways
/// to cut the same bytes lead a fetch to one place.
pub fn law_pieces_join()
    ensures { PiecesJoin }
{
    law_one_head();
    law_one_end();
}
