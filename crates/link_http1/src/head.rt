// Reads the heads of an answer from pieces, up to the final one (RFC 9112, section 4).
ghost use Rattle.std.specs.Prelude.{◌≡◌, ◌≤◌, ◌<◌, ◌+◌, ◌++◌, ◌==◌, [], length, take, IfOk};
ghost use Rattle.link_http1.specs.Answers.{IsUnfinished, most_bytes};
ghost use Rattle.link_http1.specs.HeadFeeding.{IsFed};
ghost use Rattle.link_http1.specs.Private.HeadPushing.{IsPushed};
ghost use Rattle.link_http1.specs.Private.HeadReading.{IsLine};

use crate::block::{Judged, had_or_has_line_byte, is_block, judge};
use crate::gathered::Gathered;
use crate::seen::Seen;
use std::alloc::Global;
use std::marker::Model;
use value_bytes::OutOfMemory;
use value_requests::Head;
use value_text::position_of;

// How many bytes the heads of an answer have at most.
const MOST_BYTES: usize = 65_536;

// How many bytes most heads have at most, for which room is made first.
const FEW_BYTES: usize = 1_024;

/// Reads the heads of an answer from pieces, and is seen as all bytes so far, which decide nothing yet.
#[derive(Drop)]
pub struct HeadReader {
    // The skipped heads.
    past: Seen,
    // The block that has begun after them.
    block: Gathered,
    // Whether it has a byte other than CR and LF.
    has_line_byte: bool,
    // How many bytes came, those of skipped heads included.
    seen_bytes: u32,
}

impl Model for HeadReader {
    ghost use Rattle.std.specs.Prelude.{ℕ, List, ◌++◌};

    ghost Value = { List ℕ };

    ghost use Rattle.link_http1.specs.Private.HeadReading.{IsReading};

    ghost view = { λ reader. reader.past.bytes ++ reader.block };

    ghost invariant = { IsReading };
}

/// What a piece comes to.
#[derive(Drop)]
pub enum HeadStep {
    /// Nothing is decided yet.
    More(HeadReader),
    /// The final head, and how many bytes of this piece belong to the heads.
    Final(Head, usize),
    /// A block ended that is no head.
    Bad,
    /// Byte 65,537 of the answer came before a final head or a block ended.
    TooBig,
}

/// What a line comes to.
#[derive(Drop)]
enum Pushed {
    More(HeadReader),
    Final(Head),
    Bad,
}

// How many bytes the first line has: those up to LF, or all.
fn line_length(bytes: &[u8]) -> usize
    requires { 0 < length bytes.now }
    ensures some { 0 < result }
    ensures within { result ≤ length bytes.now }
    ensures line { IsLine (take result bytes.now) }
{
    match position_of(bytes, b'\n') {
        Some(index) => index + 1,
        None => bytes.len(),
    }
}

impl HeadReader {
    /// A reader of the heads of an answer. Room for 1,024 bytes is made here, and more where a head
    /// needs it.
    pub fn new(alloc: Global) -> Result<HeadReader, OutOfMemory>
        ensures { IfOk result (λ reader. reader ≡ []) }
    {
        Ok(HeadReader {
            past: Seen::new(),
            block: Gathered::with_room(alloc, FEW_BYTES)?,
            has_line_byte: false,
            seen_bytes: 0,
        })
    }

    /// How many bytes of the answer were fed so far, skipped heads included: 65,536 at most. They
    /// decide nothing.
    pub fn seen_bytes(&self) -> u32
        ensures value { result ≡ length self.now }
        ensures few { result ≤ most_bytes }
        ensures unfinished { IsUnfinished self.now }
    {
        self.seen_bytes
    }

    /// Takes the next piece, which may be empty. Heads with a status from 100 to 199 but 101 are
    /// skipped. `Final` comes exactly where the piece has the end of the final head, `Bad` exactly where
    /// it has the end of a block that is no head, and `TooBig` exactly where it has byte 65,537 before
    /// either (RFC 9112, section 4; the blocks and the limit are this project's). After `OutOfMemory`
    /// the reader is gone.
    pub fn feed(self, alloc: Global, piece: &[u8]) -> Result<HeadStep, OutOfMemory>
        ensures { IfOk result (λ step. IsFed self piece.now step) }
    {
        let mut reader = self;
        let mut room = MOST_BYTES - reader.seen_bytes() as usize;
        let mut rest = piece;
        while !rest.is_empty() {
            let (line, behind) = rest.split_at(line_length(rest));
            if line.len() > room {
                return Ok(HeadStep::TooBig);
            }
            match reader.push(alloc, line)? {
                Pushed::More(next) => reader = next,
                Pushed::Final(head) => {
                    return Ok(HeadStep::Final(head, piece.len() - behind.len()));
                }
                Pushed::Bad => return Ok(HeadStep::Bad),
            }
            room -= line.len();
            rest = behind;
        }
        Ok(HeadStep::More(reader))
    }

    // Takes one line more, or the beginning of one.
    fn push(self, alloc: Global, line: &[u8]) -> Result<Pushed, OutOfMemory>
        requires line { IsLine line.now }
        requires few { length self + length line.now ≤ most_bytes }
        ensures { IfOk result (λ pushed. IsPushed (self ++ line.now) pushed) }
    {
        let HeadReader {
            mut past,
            mut block,
            has_line_byte: had,
            seen_bytes,
        } = self;
        block.append(line)?;
        let has_line_byte = had_or_has_line_byte(had, line);
        let seen_bytes = seen_bytes + line.len() as u32;
        if !is_block(block.as_slice(), has_line_byte) {
            return Ok(Pushed::More(HeadReader {
                past,
                block,
                has_line_byte,
                seen_bytes,
            }));
        }
        match judge(alloc, block.as_slice())? {
            Judged::NoHead => Ok(Pushed::Bad),
            Judged::Final(head) => Ok(Pushed::Final(head)),
            Judged::Skipped => {
                past.note(block.as_slice());
                block.clear();
                Ok(Pushed::More(HeadReader {
                    past,
                    block,
                    has_line_byte: false,
                    seen_bytes,
                }))
            }
        }
    }
}
