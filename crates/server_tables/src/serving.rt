// One peer is served: what it asks is read, and answered by the table.
ghost use Rattle.server_tables.specs.Serving.{IsServing, peer_told};

use crate::listen::hear;
use crate::replies::reply_to;
use crate::table::AllowTable;
use link_traits::{Peer, write_whole};
use std::alloc::Global;

/// What serving one peer came to.
#[derive(Clone, Copy, Debug, PartialEq, Eq)]
pub enum Served {
    /// It was answered, with this status.
    Answered(u16),
    /// Reading from it failed, and nothing was written.
    ReadFault,
    /// Writing to it failed, or it took nothing of a piece.
    WriteFault,
    /// Memory was refused, and nothing was written.
    OutOfMemory,
}

/// Serves one peer by the table. It reads until the bytes have a request head, no more come, or 65,536 bytes
/// came, and then writes the answer to them.
pub fn serve<P: Peer>(alloc: Global, table: &AllowTable, peer: &mut P) -> Served
    ensures { IsServing table.now (peer_told P.gives P.takes peer.old)
        (peer_told P.gives P.takes peer.new) result }
{
    let asked = match hear(alloc, peer) {
        Ok(asked) => asked,
        Err(stop) => return stop,
    };
    let Ok(reply) = reply_to(alloc, table, &asked) else {
        return Served::OutOfMemory;
    };
    match write_whole(peer, reply.bytes.as_slice()) {
        Ok(()) => Served::Answered(reply.status),
        Err(_) => Served::WriteFault,
    }
}
