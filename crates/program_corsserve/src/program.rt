// corsserve's top call.
ghost use Rattle.std.specs.Prelude.{◌≡◌, false, IfErr, IfOk};
ghost use Rattle.server_tables.specs.Serving.{peer_told};
ghost use Rattle.server_words.specs.Words.{are_texts, task_of};
ghost use Rattle.program_corsserve.specs.Connections.{accepts_told};
ghost use Rattle.program_corsserve.specs.Program.{Answers, IsDone, IsServed, IsVerdict, most_input};
ghost use Rattle.program_shell.specs.Inputs.{IsRead, IsUnread, Reads, Refuses};
ghost use Rattle.program_shell.specs.Words.{texts};
ghost use Rattle.program_shell.specs.declared.status.Status.TheVariants as status;
ghost use Rattle.server_tables.specs.Reading.{table_of};

use crate::complaint::tell;
use crate::connections::serve_each;
use link_traits::{Accepts, Failed, Sink, Source};
use program_shell::{Status, read_as, read_input};
use server_tables::{AllowTable, BadLine, read_table};
use server_words::{Task, task_of};
use std::alloc::Global;
use value_bytes::OutOfMemory;

/// The longest input that is read, in bytes.
const MOST_INPUT: usize = 1_048_832;

/// What the program came to. A table is refused at its first line that has not the form of a row. The program's own
/// fault is that the address could not be listened at, or that no connection came.
pub type ServeStatus = Status<BadLine>;

/// The program, from its words to its status. The words are tested first. Then the input is read whole and as an
/// allow table, the address that the words name is listened at, and as many connections as they say are served
/// by the table; for each, in their order, a line is written to the output. A status other than `Ok` is told by one
/// line on the complaints; where that line cannot be written the answer is `WriteFault`.
///
/// `Usage` exactly where the words are not accepted, and then nothing is read or written. `Refused` exactly where
/// the input is no table, with its first line that has not the form. `ReadFault` only where the input failed,
/// `WriteFault` only where the output or the complaints failed or took nothing, `OwnFault` only where
/// `accepts` failed. `InputTooLong` exactly where byte 1,048,833 was read. `OutOfMemory` where memory was refused.
/// What a peer does changes the status only by the memory that it costs.
pub fn corsserve<S: Source, K: Sink, E: Sink, A: Accepts>(
    alloc: Global,
    words: &[String],
    input: &mut S,
    output: &mut K,
    complaints: &mut E,
    accepts: &mut A,
) -> ServeStatus
    ensures { Answers (peer_told A.End.gives A.End.takes)
        (texts words.now)
        (S.gives input.old) (S.gives input.new)
        (accepts_told A.opened A.coming A.lent A.faults accepts.old)
        (accepts_told A.opened A.coming A.lent A.faults accepts.new)
        (K.takes output.old) (K.takes output.new)
        (E.takes complaints.old) (E.takes complaints.new)
        result }
{
    let verdict = verdict(alloc, words, input, output, accepts);
    tell(verdict, complaints)
}

// The verdict on the words, the input and the connections.
fn verdict<S: Source, K: Sink, A: Accepts>(
    alloc: Global,
    words: &[String],
    input: &mut S,
    output: &mut K,
    accepts: &mut A,
) -> ServeStatus
    ensures first { are_texts (texts words.now) ≡ false → result ≡ status.Usage }
    ensures verdict { IsVerdict (peer_told A.End.gives A.End.takes)
        (task_of (texts words.now))
        (S.gives input.old) (S.gives input.new)
        (accepts_told A.opened A.coming A.lent A.faults accepts.old)
        (accepts_told A.opened A.coming A.lent A.faults accepts.new)
        (K.takes output.old) (K.takes output.new) result }
{
    match task_of(alloc, words) {
        Err(OutOfMemory) => Status::OutOfMemory,
        Ok(None) => Status::Usage,
        Ok(Some(task)) => serve_input(alloc, &task, input, output, accepts),
    }
}

// The table that the whole input is, or else the verdict on the input.
fn table_in<S: Source>(alloc: Global, input: &mut S) -> Result<AllowTable, ServeStatus>
    ensures read { IfOk result (IsRead most_input (Reads table_of) (Refuses table_of) (S.gives input.old)
        (S.gives input.new)) }
    ensures unread { IfErr result (IsUnread most_input (Reads table_of) (Refuses table_of) (S.gives input.old)
        (S.gives input.new)) }
{
    let text = read_input(alloc, input, MOST_INPUT)?;
    read_as(read_table(alloc, text.as_slice()))
}

// Serves by the table that the input is.
fn serve_input<S: Source, K: Sink, A: Accepts>(
    alloc: Global,
    task: &Task,
    input: &mut S,
    output: &mut K,
    accepts: &mut A,
) -> ServeStatus
    ensures { IsDone (peer_told A.End.gives A.End.takes)
        (S.gives input.old) (S.gives input.new) task.now
        (accepts_told A.opened A.coming A.lent A.faults accepts.old)
        (accepts_told A.opened A.coming A.lent A.faults accepts.new)
        (K.takes output.old) (K.takes output.new) result }
{
    match table_in(alloc, input) {
        Err(verdict) => verdict,
        Ok(table) => serve_table(alloc, &table, task, output, accepts),
    }
}

// Serves by a table.
fn serve_table<K: Sink, A: Accepts>(
    alloc: Global,
    table: &AllowTable,
    task: &Task,
    output: &mut K,
    accepts: &mut A,
) -> ServeStatus
    ensures { IsServed (peer_told A.End.gives A.End.takes) table.now
        task.now
        (accepts_told A.opened A.coming A.lent A.faults accepts.old)
        (accepts_told A.opened A.coming A.lent A.faults accepts.new)
        (K.takes output.old) (K.takes output.new) result }
{
    match accepts.listen(task.address.as_slice()) {
        Err(Failed) => Status::OwnFault,
        Ok(()) => serve_each(alloc, table, task.count, output, accepts),
    }
}
