// The connections, served one after the other, and the line that each is told by.
ghost use Rattle.std.specs.Prelude.{◌≡◌, IfOk, OnErr};
ghost use Rattle.server_tables.specs.Serving.{peer_told};
ghost use Rattle.program_corsserve.specs.Connections.{Serves, accepts_told};
ghost use Rattle.program_corsserve.specs.Private.Nexts.{HasNoNext, HasServedNext};
ghost use Rattle.program_corsserve.specs.Private.Notes.{IsNoted};

use crate::program::ServeStatus;
use itoa::Buffer;
use link_traits::{Accepts, Failed, Sink};
use program_shell::{Status, status_of, write_line};
use server_tables::{AllowTable, Served, serve};
use std::alloc::Global;

// Writes the line of a connection, which has none where memory was refused.
fn note<K: Sink>(output: &mut K, served: Served) -> ServeStatus
    ensures { IsNoted (K.takes output.old)
        (K.takes output.new) served result }
{
    match served {
        Served::Answered(status) => {
            let mut buffer = Buffer::new();
            status_of(write_line(output, b"answered ", buffer.format(status).as_bytes()))
        }
        Served::ReadFault => status_of(write_line(output, b"fault read", b"")),
        Served::WriteFault => status_of(write_line(output, b"fault write", b"")),
        Served::OutOfMemory => Status::OutOfMemory,
    }
}

// Serves the next connection, and takes its end back.
fn serve_next<A: Accepts>(
    alloc: Global,
    table: &AllowTable,
    accepts: &mut A,
) -> Result<Served, Failed>
    ensures ok { IfOk result (HasServedNext (peer_told A.End.gives A.End.takes) table.now
        (accepts_told A.opened A.coming A.lent A.faults accepts.old)
        (accepts_told A.opened A.coming A.lent A.faults accepts.new)) }
    ensures err { OnErr result (HasNoNext (accepts_told A.opened A.coming A.lent A.faults accepts.old)
        (accepts_told A.opened A.coming A.lent A.faults accepts.new)) }
{
    let mut end = accepts.next()?;
    let served = serve(alloc, table, &mut end);
    accepts.take_back(end);
    Ok(served)
}

// Serves the next connection, and writes its line once its end was taken back.
fn serve_and_note<K: Sink, A: Accepts>(
    alloc: Global,
    table: &AllowTable,
    output: &mut K,
    accepts: &mut A,
) -> ServeStatus
    ensures { Serves (peer_told A.End.gives A.End.takes) table.now 1
        (accepts_told A.opened A.coming A.lent A.faults accepts.old)
        (accepts_told A.opened A.coming A.lent A.faults accepts.new)
        (K.takes output.old) (K.takes output.new) result }
{
    match serve_next(alloc, table, accepts) {
        Ok(served) => note(output, served),
        Err(Failed) => Status::OwnFault,
    }
}

// Serves so many connections, one after the other.
pub(crate) fn serve_each<K: Sink, A: Accepts>(
    alloc: Global,
    table: &AllowTable,
    count: u32,
    output: &mut K,
    accepts: &mut A,
) -> ServeStatus
    ensures { Serves (peer_told A.End.gives A.End.takes) table.now
        count
        (accepts_told A.opened A.coming A.lent A.faults accepts.old)
        (accepts_told A.opened A.coming A.lent A.faults accepts.new)
        (K.takes output.old) (K.takes output.new) result }
{
    let mut number = 0;
    while number < count {
        match serve_and_note(alloc, table, output, accepts) {
            Status::Ok => number += 1,
            status => return status,
        }
    }
    Status::Ok
}
