// Bytes of an answer come.
ghost use Rattle.std.specs.Prelude.{◌≡◌, true, IsTrue, Some};
ghost use Rattle.fetch_acts.specs.declared.act.Act.TheVariants.{ReadBody, ReadHead};
ghost use Rattle.fetch_session.specs.Feeding as spec;
ghost use Rattle.fetch_session.specs.Feeding.{reads_bytes};
ghost use Rattle.fetch_session.specs.Private.Pieces.{fed_so, BodyCame, Came, HeadCame};
ghost use Rattle.fetch_session.specs.Readers.{bodies_read, suits};
ghost use Rattle.fetch_session.specs.Sessions.{bytes_of, stands_at, standing_of};

use crate::reading::{Bodies, Reader, fitted};
use crate::session::{Session, Stand, Waiting, Went};
use fetch_acts::{Act, Input};
use fetch_machine::Fetching;
use link_http1::{BodyReader, BodyStep, HeadReader, HeadStep};
use std::alloc::Global;

/// What a piece of an answer came to: how the call went, and how many bytes of the piece were read.
#[derive(Clone, Copy, Debug, PartialEq, Eq)]
pub struct Fed {
    pub went: Went,
    pub used: usize,
}

// How many bytes of a piece were read, which are none where memory was refused.
fn fed_by(went: Went, used: usize) -> Fed
    ensures { result ≡ fed_so went used }
{
    match went {
        Went::On => Fed { went, used },
        Went::NotAwaited | Went::OutOfMemory => Fed { went, used: 0 },
    }
}

impl Session {
    /// Whether bytes of an answer are awaited.
    pub fn reads(&self) -> bool
        ensures { result ≡ spec.reads (standing_of self.now) }
    {
        matches!(self.act(), Some(Act::ReadHead | Act::ReadBody))
    }

    // Waits on for what comes of the act, with this reader.
    fn wait(&mut self, fetching: Fetching, act: Act, reader: Reader, bodies: Bodies)
        requires asked { fetching.last.value ≡ act }
        requires suited { IsTrue (suits act reader) }
        requires framed { bodies_read reader bodies ≡ bodies }
        ensures { standing_of self.new ≡ Some (stands_at self.old.document fetching act (bytes_of reader) bodies) }
    {
        self.settle(Stand::Waits(Waiting {
            fetching,
            act,
            reader,
            bodies,
        }));
    }

    // Feeds a reader of heads, and goes on from a head that is decided.
    fn feed_head(
        &mut self,
        alloc: Global,
        fetching: Fetching,
        bodies: Bodies,
        reader: HeadReader,
        piece: &[u8],
    ) -> Fed
        requires { fetching.last.value ≡ ReadHead }
        ensures { HeadCame (stands_at self.old.document fetching ReadHead reader bodies) piece.now result.went
            result.used (standing_of self.new) }
    {
        let Ok(step) = reader.feed(alloc, piece) else {
            self.settle(Stand::Gone);
            return fed_by(Went::OutOfMemory, 0);
        };
        match step {
            HeadStep::More(reader) => {
                self.wait(fetching, Act::ReadHead, Reader::Head(reader), bodies);
                fed_by(Went::On, piece.len())
            }
            HeadStep::Final(head, used) => {
                fed_by(
                    self.go_on(alloc, fetching, bodies, Input::HeadIs(head)),
                    used,
                )
            }
            HeadStep::Bad => fed_by(
                self.go_on(alloc, fetching, bodies, Input::HeadBad),
                piece.len(),
            ),
            HeadStep::TooBig => {
                fed_by(
                    self.go_on(alloc, fetching, bodies, Input::HeadLong),
                    piece.len(),
                )
            }
        }
    }

    // Feeds a reader of a body, and goes on from a body that is decided.
    fn feed_body(
        &mut self,
        alloc: Global,
        fetching: Fetching,
        bodies: Bodies,
        reader: BodyReader,
        piece: &[u8],
    ) -> Fed
        requires asked { fetching.last.value ≡ ReadBody }
        requires framed { record { framing = reader.framing; limit = reader.limit } ≡ bodies }
        ensures { BodyCame (stands_at self.old.document fetching ReadBody reader.bytes bodies) piece.now result.went
            result.used (standing_of self.new) }
    {
        match reader.feed(piece) {
            BodyStep::More(reader) => {
                self.wait(fetching, Act::ReadBody, Reader::Body(reader), bodies);
                fed_by(Went::On, piece.len())
            }
            BodyStep::Over(end) => {
                let Ok(end) = fitted(alloc, end) else {
                    self.settle(Stand::Gone);
                    return fed_by(Went::OutOfMemory, 0);
                };
                fed_by(
                    self.go_on(alloc, fetching, bodies, Input::BodyIs(end)),
                    piece.len(),
                )
            }
        }
    }

    // Feeds the reader of a fetch that reads.
    #[tactic(auto, using(crate::proofs::FeedingLemmas::body_suits))]
    fn feed_reader(&mut self, alloc: Global, waiting: Waiting, piece: &[u8]) -> Fed
        requires { reads_bytes (Some waiting.act) ≡ true }
        ensures { Came (Some waiting.act)
            (stands_at self.old.document waiting.fetching waiting.act (bytes_of waiting.reader) waiting.bodies)
            piece.now result.went result.used (standing_of self.new) }
    {
        let Waiting {
            fetching,
            act,
            reader,
            bodies,
        } = waiting;
        drop(act);
        match reader {
            Reader::Head(reader) => self.feed_head(alloc, fetching, bodies, reader, piece),
            Reader::Body(reader) => self.feed_body(alloc, fetching, bodies, reader, piece),
            Reader::Idle => unreachable!(),
        }
    }

    /// The next bytes of the answer came, in any piece, be it empty. Where a head ends in the piece, the bytes behind
    /// it are not read: they are the first of the body, and are fed again if one is read, also where there are none.
    pub fn feed(&mut self, alloc: Global, piece: &[u8]) -> Fed
        ensures { spec.Fed piece.now (standing_of self.old) result.went result.used (standing_of self.new) }
    {
        if !self.reads() {
            return fed_by(Went::NotAwaited, 0);
        }
        let Some(waiting) = self.lift() else {
            return fed_by(Went::NotAwaited, 0);
        };
        self.feed_reader(alloc, waiting, piece)
    }
}
