// A line of a printed history, read back as its entry.
ghost use Rattle.std.specs.Prelude.{◌≡◌, map, IfOk};
ghost use Rattle.audit_text.specs.Entries.{IsReading};
ghost use Rattle.audit_text.specs.Private.Reading as spec;

use crate::calls::call_in;
use book_calls::Entry;
use std::alloc::Global;
use value_bytes::{OutOfMemory, Shared};
use value_decimal::number_up_to;
use value_text::parts_between;

// The words of an entry's line.
fn entry_in(alloc: Global, words: &[&[u8]]) -> Result<Option<Entry>, OutOfMemory>
    ensures { IfOk result (λ entry. entry ≡ spec.entry_in (map (λ word. word.now) words.now)) }
{
    let [turn, document, rest @ ..] = words else {
        return Ok(None);
    };
    let Some(turn) = number_up_to(u64::MAX, turn) else {
        return Ok(None);
    };
    let Some(document) = number_up_to(4_294_967_295, document) else {
        return Ok(None);
    };
    let Some(call) = call_in(alloc, rest)? else {
        return Ok(None);
    };
    Ok(Some(Entry {
        turn,
        document: document as u32,
        op: Shared::new(alloc, call.op)?,
        reply: call.reply,
    }))
}

/// The entry whose line a text is, its LF aside. `None` exactly where there is no such entry.
pub fn read_entry(alloc: Global, text: &[u8]) -> Result<Option<Entry>, OutOfMemory>
    ensures { IfOk result (IsReading text.now) }
{
    let words = parts_between(alloc, text, b' ')?;
    entry_in(alloc, words.as_slice())
}
