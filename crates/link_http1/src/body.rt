// Reads the body of an answer from pieces, by its framing and up to a limit (RFC 9112, sections 6.3, 7.1 and 8).
ghost use Rattle.std.specs.Prelude.{◌≡◌, ◌≤◌, ◌<◌, ◌++◌, ℕ, List, [], length, IfOk};
ghost use Rattle.link_http1.specs.Bodies.{IsOpen, body_end, fewest as fewest_behind};
ghost use Rattle.link_http1.specs.BodyFeeding.{IsFed};
ghost use Rattle.link_http1.specs.Private.BodyPlaces as places;
ghost use Rattle.link_http1.specs.Private.BodyPlaces.{IsKept, rest_end};
ghost use Rattle.link_http1.specs.Framings as spec;
ghost use Rattle.link_http1.specs.declared.place.Place.{Place};

use crate::framing::{Framing, framing_of};
use crate::place::Place;
use crate::seen::Seen;
use crate::taking::{Found, least, take_piece};
use std::alloc::Global;
use std::marker::Model;
use value_bytes::{Bytes, OutOfMemory};
use value_requests::{BodyEnd, Head};

/// Reads the body of an answer from pieces, and is seen as its framing, its limit and all bytes so far,
/// which do not decide the body.
#[derive(Drop)]
pub struct BodyReader {
    framing: Framing,
    limit: u32,
    /// The decoded bytes so far, with room for as many as there may be.
    held: Vec<u8>,
    /// How far a body in chunks has been read.
    place: Place,
    seen: Seen,
}

impl Model for BodyReader {
    ghost use Rattle.std.specs.Prelude.{vec_capacity};
    ghost use Rattle.link_http1.specs.BodyReading.{BodyReading};

    ghost Value = { BodyReading };

    ghost use Rattle.link_http1.specs.Private.BodyPlaces.{IsReading};

    ghost view = { λ reader. record { framing = reader.framing; limit = reader.limit; bytes = reader.seen.bytes } };

    ghost invariant = { λ reader. IsReading reader.framing reader.limit reader.seen.bytes reader.held.items
        (vec_capacity reader.held) reader.place };
}

/// What a piece comes to.
#[derive(Drop)]
pub enum BodyStep {
    /// The bytes so far do not decide the body.
    More(BodyReader),
    /// They decide it.
    Over(BodyEnd),
}

impl BodyReader {
    /// A reader of the body that follows a head. As many bytes are reserved here as the body may have: the
    /// limit, or its length where the framing tells a lesser one.
    pub fn new(alloc: Global, head: &Head, limit: u32) -> Result<BodyReader, OutOfMemory>
        ensures { IfOk result (λ reader. reader
            ≡ record { framing = spec.framing_of head.now; limit = limit; bytes = [] }) }
    {
        let framing = framing_of(alloc, head)?;
        BodyReader::framed(alloc, framing, limit)
    }

    /// A reader of a body with this framing, for which as many bytes are reserved here as it may have.
    pub fn framed(alloc: Global, framing: Framing, limit: u32) -> Result<BodyReader, OutOfMemory>
        ensures { IfOk result (λ reader. reader ≡ record { framing = framing; limit = limit; bytes = [] }) }
    {
        let held = Vec::with_capacity(alloc, most_held(framing, limit))?;
        Ok(BodyReader {
            framing,
            limit,
            held,
            place: Place::Size(0, 0),
            seen: Seen::new(),
        })
    }

    /// Takes the next piece, which may be empty, and takes no memory. `Over` comes exactly where the
    /// bytes so far decide the body, whatever bytes follow: `Whole` with all of it, `Cut` with the number
    /// of bytes before what does not fit the framing, or `TooBig` with the byte after the limit (RFC
    /// 9112, sections 6.3, 7.1 and 8). A whole body keeps the room that was reserved: `Bytes::fitted`
    /// gives it back.
    pub fn feed(self, piece: &[u8]) -> BodyStep
        ensures { IsFed self piece.now result }
    {
        let BodyReader {
            framing,
            limit,
            mut held,
            mut place,
            mut seen,
        } = self;
        seen.note(piece);
        match take_piece(framing, &mut held, &mut place, limit, piece) {
            Found::Open => BodyStep::More(BodyReader {
                framing,
                limit,
                held,
                place,
                seen,
            }),
            Found::Absent => BodyStep::Over(BodyEnd::Null),
            Found::Whole => BodyStep::Over(whole(held)),
            Found::Cut => BodyStep::Over(BodyEnd::Cut(held.len() as u32)),
            Found::TooBig => BodyStep::Over(BodyEnd::TooBig),
        }
    }

    /// How many bytes more are needed at least to decide the body: fewer leave it open. They are those up to
    /// its length or up to the first byte after the limit, whichever comes first. 0 for chunks, where that is
    /// not known, and where the framing alone decides.
    pub fn fewest(&self) -> usize
        ensures exact { result ≡ fewest_behind self.now.framing self.now.limit (length self.now.bytes) }
        ensures open { (piece : List ℕ) → length piece < result
            → IsOpen self.now.framing self.now.limit (self.now.bytes ++ piece) }
    {
        let held = self.held.len();
        let beyond = self.limit as usize + 1;
        match self.framing {
            Framing::Length(total) => least(total, beyond) - held,
            Framing::ToEnd => beyond - held,
            Framing::Nothing | Framing::Broken | Framing::Chunked => 0,
        }
    }

    /// How the body comes to its end where the answer ends here. It takes no memory.
    pub fn finish(self) -> BodyEnd
        ensures { result ≡ body_end self.framing self.limit self.bytes }
    {
        end_here(self.framing, self.limit, self.held, self.place)
    }
}

// How many bytes a body with this framing and limit has at most.
fn most_held(framing: Framing, limit: u32) -> usize
    ensures { result ≡ places.most_held framing limit }
{
    match framing {
        Framing::Nothing | Framing::Broken => 0,
        Framing::Length(total) => total.min(u64::from(limit)) as usize,
        Framing::ToEnd | Framing::Chunked => limit as usize,
    }
}

// A whole body, which keeps the room that was reserved.
fn whole(held: Vec<u8>) -> BodyEnd
    ensures { result ≡ BodyEnd.Whole held.items }
{
    BodyEnd::Whole(Bytes::from_vec(held))
}

// How the body ends where no more bytes come.
fn end_here(framing: Framing, limit: u32, held: Vec<u8>, place: Place) -> BodyEnd
    requires within { length held.items ≤ limit }
    requires kept { IsKept framing held.items place }
    ensures { result ≡ rest_end framing limit held.items place [] }
{
    let _ = limit;
    let _ = place;
    let count = held.len() as u32;
    match framing {
        Framing::Nothing => BodyEnd::Null,
        Framing::ToEnd => whole(held),
        Framing::Length(total) if u64::from(count) == total => whole(held),
        Framing::Broken | Framing::Length(_) | Framing::Chunked => BodyEnd::Cut(count),
    }
}
