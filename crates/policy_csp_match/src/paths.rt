// Whether the path of a host-source matches that of a URL (CSP 3, "path-part matches").
ghost use Rattle.std.specs.Prelude.{◌≡◌, ◌<◌, ◌∷◌, length, option_copied, IfSome};
ghost use Rattle.policy_csp_match.specs.Paths as spec;
ghost use Rattle.policy_csp_match.specs.Private.Walking.{pieces_left, walks};

use percent_encoding::percent_decode;
use value_text::position_of;

// Whether two pieces are identical, percent-decoded.
fn same_piece(a: &[u8], b: &[u8]) -> bool
    ensures { result ≡ spec.same_piece a.now b.now }
{
    percent_decode(a).eq(percent_decode(b))
}

// The first piece of a path, and what is left after its slash, where there is one.
fn first_piece(path: &[u8]) -> (&[u8], Option<&[u8]>)
    ensures pieces { spec.pieces path.now ≡ result.0.now ∷ pieces_left (option_copied result.1) }
    ensures shorter { IfSome result.1 (λ left. length left.now < length path.now) }
{
    match position_of(path, b'/') {
        None => (path, None),
        Some(index) => (path.split_at(index).0, Some(path.split_at(index + 1).1)),
    }
}

// Whether the pieces are the same, place by place, and the URL has more of them, or has no more.
#[tactic(auto, using(crate::proofs::PieceLemmas::left_none, crate::proofs::PieceLemmas::none_left))]
fn walks(path: &[u8], url_path: &[u8], more: bool) -> bool
    ensures { result ≡ walks more (spec.pieces path.now) (spec.pieces url_path.now) }
{
    let mut left = path;
    let mut url_left = url_path;
    'pieces: loop {
        let (piece, behind) = first_piece(left);
        let (url_piece, url_behind) = first_piece(url_left);
        if !same_piece(piece, url_piece) {
            return false;
        }
        match (behind, url_behind) {
            (None, None) => return !more,
            (None, Some(_)) => return more,
            (Some(_), None) => return false,
            (Some(behind), Some(url_behind)) => {
                left = behind;
                url_left = url_behind;
            }
        }
    }
}

// "path-part matches": where the path ends in `/`, the URL has the pieces before it and more; else they
// have the same pieces, percent-decoded.
pub(crate) fn path_part_matches(path: &[u8], url_path: &[u8]) -> bool
    ensures { result ≡ spec.path_part_matches path.now url_path.now }
{
    match path.strip_suffix(b"/") {
        Some(front) => walks(front, url_path, true),
        None => walks(path, url_path, false),
    }
}
