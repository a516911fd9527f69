// What is still to come of an answer in memory, piece by piece.
ghost use Rattle.std.specs.Prelude.{◌≡◌, ◌++◌, [], min, take, drop, length};
ghost use Rattle.link_traits.specs.MemoryLink.{behind, front, skipped};

use std::alloc::Global;
use std::marker::Model;
use value_bytes::BytesList;

/// What is still to come of an answer, seen as the list of its pieces, the first of which may have
/// been given in part.
#[derive(Drop)]
pub(crate) struct Pieces {
    answer: BytesList,
    piece: usize,
    at: usize,
}

impl Model for Pieces {
    ghost use Rattle.std.specs.Prelude.{◌≤◌, List, ℕ, drop, length};
    ghost use Rattle.link_traits.specs.MemoryLink.{behind, front};

    ghost Value = { List (List ℕ) };

    ghost view = { λ pieces. behind pieces.at (drop pieces.piece pieces.answer) };

    ghost invariant = { λ pieces. pieces.at ≤ length (front (drop pieces.piece pieces.answer)) };
}

impl Pieces {
    // The pieces of an answer.
    pub(crate) fn of(answer: BytesList) -> Pieces
        ensures { result ≡ answer }
    {
        Pieces {
            answer,
            piece: 0,
            at: 0,
        }
    }

    // No piece. It takes no memory.
    pub(crate) fn none(alloc: Global) -> Pieces
        ensures { result ≡ [] }
    {
        Pieces::of(BytesList::new(alloc))
    }

    // Drops them all.
    pub(crate) fn clear(&mut self)
        ensures { self.new ≡ [] }
    {
        self.piece = self.answer.len();
        self.at = 0;
    }

    // Puts the next bytes at the front of the buffer, and answers how many: as many as the buffer
    // holds, and as the first piece has left that is not empty.
    pub(crate) fn give(&mut self, buf: &mut [u8]) -> usize
        ensures count { result ≡ min (length (front (skipped self.old))) (length buf.old) }
        ensures left { self.new ≡ behind result (skipped self.old) }
        ensures given { buf.new ≡ take result (front (skipped self.old)) ++ drop result buf.old }
    {
        self.skip();
        if self.piece >= self.answer.len() {
            return 0;
        }
        let rest = self.answer.at(self.piece).split_at(self.at).1;
        let count = rest.len().min(buf.len());
        buf[..count].copy_from_slice(&rest[..count]);
        self.at += count;
        count
    }

    // Goes to the first piece that has bytes left.
    fn skip(&mut self)
        ensures { self.new ≡ skipped self.old }
    {
        while self.piece < self.answer.len() && self.at == self.answer.at(self.piece).len() {
            self.piece += 1;
            self.at = 0;
        }
    }
}
