// Reads the head of a request from a peer, within a limit.
ghost use Rattle.std.specs.Prelude.{◌≡◌, ◌≤◌, [], length, true, false, ◌||◌, IfOk, IfErr, OnOk, OnErr};
ghost use Rattle.std.specs.List.{list_any};
ghost use Rattle.link_http1.specs.Blocks as spec;
ghost use Rattle.server_tables.specs.Private.Coming.{HasBlock, HasCome, HasEnded, HasFailed, HasHeard, IsSearched};
ghost use Rattle.server_tables.specs.Private.Coming.{Stopped};
ghost use Rattle.server_tables.specs.Serving.{most_read, peer_told};

use crate::serving::Served;
use link_http1::{Asked, read_request};
use link_traits::{Failed, Peer};
use std::alloc::Global;

// How many bytes are read of a peer at most.
const MOST_READ: usize = 65_536;

// How many bytes are asked for at once.
const PIECE: usize = 4_096;

// How many bytes most requests have at most, for which room is made first.
const FEW_BYTES: usize = 1_024;

// Whether there was a byte of a line, which is neither CR nor LF, or this is one.
fn has_begun(begun: bool, byte: u8) -> bool
    ensures { result ≡ (begun || spec.is_line_byte byte) }
{
    begun || !(byte == b'\r' || byte == b'\n')
}

// Whether the bytes are a block.
fn is_block(bytes: &[u8], begun: bool) -> bool
    requires { begun ≡ list_any spec.is_line_byte bytes.now }
    ensures { result ≡ spec.is_block bytes.now }
{
    begun && (bytes.ends_with(b"\n\n") || bytes.ends_with(b"\n\r\n"))
}

/// How far bytes were searched for the end of a block.
#[derive(Drop)]
struct Search {
    searched: usize,
    // Whether they have a byte of a line.
    begun: bool,
}

impl Search {
    // Goes on to the end of the bytes, or to where a block ends. Whether one does.
    fn finds_block(&mut self, bytes: &[u8]) -> bool
        requires { IsSearched self.old bytes.now }
        ensures found { result ≡ true → HasBlock bytes.now }
        ensures searched { result ≡ false → IsSearched self.new bytes.now }
        ensures all { result ≡ false → self.new.searched ≡ length bytes.now }
    {
        while self.searched < bytes.len() {
            self.begun = has_begun(self.begun, bytes[self.searched]);
            self.searched += 1;
            if is_block(&bytes[..self.searched], self.begun) {
                return true;
            }
        }
        false
    }
}

// Reads until a block ends, or else until no more bytes come or as many came as are read at most. Whether one
// ended. Only what it reads is searched for it.
fn read_block<P: Peer>(peer: &mut P, bytes: &mut Vec<u8>) -> Result<bool, Served>
    requires { bytes.old.items ≡ [] }
    ensures came { IfOk result (HasCome (peer_told P.gives P.takes peer.old)
        (peer_told P.gives P.takes peer.new) bytes.new.items) }
    ensures stopped { IfErr result (Stopped (peer_told P.gives P.takes peer.old)
        (peer_told P.gives P.takes peer.new)) }
{
    let mut buffer = [0u8; PIECE];
    let mut search = Search {
        searched: 0,
        begun: false,
    };
    while bytes.len() < MOST_READ {
        let room = (MOST_READ - bytes.len()).min(PIECE);
        let piece = &mut buffer[..room];
        let count = match peer.read(piece) {
            Ok(0) => return Ok(false),
            Ok(count) => count,
            Err(Failed) => return Err(Served::ReadFault),
        };
        let Ok(()) = bytes.extend_from_slice(&piece[..count]) else {
            return Err(Served::OutOfMemory);
        };
        if search.finds_block(bytes.as_slice()) {
            return Ok(true);
        }
    }
    Ok(false)
}

// Reads on after so many bytes, until no more come or as many came as are read at most.
fn read_rest<P: Peer>(peer: &mut P, before: usize) -> Result<(), Failed>
    requires { before ≤ most_read }
    ensures ended { OnOk result (HasEnded (peer_told P.gives P.takes peer.old)
        (peer_told P.gives P.takes peer.new) before) }
    ensures failed { OnErr result (HasFailed (peer_told P.gives P.takes peer.old)
        (peer_told P.gives P.takes peer.new) before) }
{
    let mut buffer = [0u8; PIECE];
    let mut room = MOST_READ - before;
    while room > 0 {
        match peer.read(&mut buffer[..room.min(PIECE)]) {
            Ok(0) => return Ok(()),
            Ok(count) => room -= count,
            Err(Failed) => return Err(Failed),
        }
    }
    Ok(())
}

// Reads of a peer until the bytes have a request head, no more come, or as many came as are read at most; and
// reads the head. Where a block has ended that is no head, no head can come any more.
pub(crate) fn hear<P: Peer>(alloc: Global, peer: &mut P) -> Result<Option<Asked>, Served>
    ensures heard { IfOk result (HasHeard (peer_told P.gives P.takes peer.old)
        (peer_told P.gives P.takes peer.new)) }
    ensures stopped { IfErr result (Stopped (peer_told P.gives P.takes peer.old)
        (peer_told P.gives P.takes peer.new)) }
{
    let Ok(mut bytes) = Vec::with_capacity(alloc, FEW_BYTES) else {
        return Err(Served::OutOfMemory);
    };
    let found = read_block(peer, &mut bytes)?;
    let Ok(asked) = read_request(alloc, bytes.as_slice()) else {
        return Err(Served::OutOfMemory);
    };
    if found && asked.is_none() {
        return match read_rest(peer, bytes.as_slice().len()) {
            Ok(()) => Ok(None),
            Err(Failed) => Err(Served::ReadFault),
        };
    }
    Ok(asked)
}
