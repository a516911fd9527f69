// Takes pieces of a body: what they come to, and the bytes that are decoded of them.
ghost use Rattle.std.specs.Prelude.{◌≡◌, ◌≤◌, ◌<◌, ◌+◌, ◌++◌, length, take, min, nat_le, vec_capacity};
ghost use Rattle.std.specs.Prelude.{if◌then◌else◌, ℕ, List};
ghost use Rattle.link_http1.specs.Bodies.{ended};
ghost use Rattle.link_http1.specs.Private.BodyPlaces.{Comes, IsKept, most_held, rest_end};
ghost use Rattle.link_http1.specs.Private.Places.{IsLive};
ghost use Rattle.link_http1.specs.declared.place.Place.{Place};

use crate::framing::Framing;
use crate::place::{Place, Turn};

/// What a piece of a body comes to.
#[derive(Clone, Copy)]
pub(crate) enum Found {
    /// The body is not decided.
    Open,
    /// There is no body.
    Absent,
    /// The body is whole.
    Whole,
    /// What follows the decoded bytes does not fit the framing.
    Cut,
    /// The byte after the limit came.
    TooBig,
}

// Takes bytes of the body where they do not exceed the limit. Then there is room for them.
fn take_data(held: &mut Vec<u8>, limit: u32, bytes: &[u8]) -> bool
    requires within { length held.old.items ≤ limit }
    requires reserved { length held.old.items + length bytes.now ≤ limit
        → length held.old.items + length bytes.now ≤ vec_capacity held.old }
    ensures fits { result ≡ nat_le (length held.old.items + length bytes.now) limit }
    ensures items { held.new.items ≡ (if result then held.old.items ++ bytes.now else held.old.items) }
    ensures room { vec_capacity held.old ≤ vec_capacity held.new }
{
    if bytes.len() > limit as usize - held.len() {
        return false;
    }
    // There is room.
    let _ = held.extend_from_slice(bytes);
    true
}

// Takes a piece of a body that goes to the end.
fn take_all(held: &mut Vec<u8>, limit: u32, piece: &[u8]) -> Found
    requires within { length held.old.items ≤ limit }
    requires reserved { limit ≤ vec_capacity held.old }
    ensures { (place : Place) → Comes Framing.ToEnd limit
        (λ more. rest_end Framing.ToEnd limit held.old.items place (piece.now ++ more))
        held.new.items (vec_capacity held.new) place result }
{
    if take_data(held, limit, piece) {
        Found::Open
    } else {
        Found::TooBig
    }
}

// Takes a piece of a body of so many bytes.
fn take_length(held: &mut Vec<u8>, limit: u32, total: u64, piece: &[u8]) -> Found
    requires within { length held.old.items ≤ limit }
    requires reserved { most_held (Framing.Length total) limit ≤ vec_capacity held.old }
    requires kept { length held.old.items ≤ total }
    ensures { (place : Place) → Comes (Framing.Length total) limit
        (λ more. rest_end (Framing.Length total) limit held.old.items place (piece.now ++ more))
        held.new.items (vec_capacity held.new) place result }
{
    let missing = total - held.len() as u64;
    let bytes = piece.split_at(least(missing, piece.len())).0;
    if !take_data(held, limit, bytes) {
        return Found::TooBig;
    }
    if held.len() as u64 == total {
        Found::Whole
    } else {
        Found::Open
    }
}

// The lesser of a count of bytes and of how many there are.
pub(crate) fn least(count: u64, len: usize) -> usize
    ensures { result ≡ min count len }
{
    count.min(len as u64) as usize
}

// Takes a piece of a body in chunks.
fn take_chunks(held: &mut Vec<u8>, place: &mut Place, limit: u32, piece: &[u8]) -> Found
    requires within { length held.old.items ≤ limit }
    requires reserved { limit ≤ vec_capacity held.old }
    requires kept { IsLive place.old }
    ensures { Comes Framing.Chunked limit
        (λ more. rest_end Framing.Chunked limit held.old.items place.old (piece.now ++ more))
        held.new.items (vec_capacity held.new) place.new result }
{
    let mut rest = piece;
    while let [byte, behind @ ..] = rest {
        let left = place.data_left();
        if left > 0 {
            let (bytes, behind) = rest.split_at(least(left, rest.len()));
            if !take_data(held, limit, bytes) {
                return Found::TooBig;
            }
            *place = Place::Data(left - bytes.len() as u64);
            rest = behind;
        } else {
            match place.turn(*byte) {
                Turn::To(next) => *place = next,
                Turn::Ended => return Found::Whole,
                Turn::Broken => return Found::Cut,
            }
            rest = behind;
        }
    }
    Found::Open
}

// Takes a piece of a body with this framing.
pub(crate) fn take_piece(
    framing: Framing,
    held: &mut Vec<u8>,
    place: &mut Place,
    limit: u32,
    piece: &[u8],
) -> Found
    requires within { length held.old.items ≤ limit }
    requires reserved { most_held framing limit ≤ vec_capacity held.old }
    requires kept { IsKept framing held.old.items place.old }
    ensures { Comes framing limit (λ more. rest_end framing limit held.old.items place.old (piece.now ++ more))
        held.new.items (vec_capacity held.new) place.new result }
{
    match framing {
        Framing::Nothing => Found::Absent,
        Framing::Broken => Found::Cut,
        Framing::ToEnd => take_all(held, limit, piece),
        Framing::Length(total) => take_length(held, limit, total, piece),
        Framing::Chunked => take_chunks(held, place, limit, piece),
    }
}
