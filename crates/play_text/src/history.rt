// The printed lines of the history of the book.
ghost use Rattle.std.specs.Prelude.{◌≡◌, ◌++◌, IfOk, OnOk};
ghost use Rattle.std.specs.List.{flat_map};
ghost use Rattle.play_text.specs.Text as spec;

use crate::lines::{add_call, add_number};
use crate::page::Page;
use book_calls::Entry;
use std::alloc::Global;
use value_bytes::{Bytes, OutOfMemory};

// Adds an entry of the history.
fn add_entry(text: &mut Page, entry: &Entry) -> Result<(), OutOfMemory>
    ensures { OnOk result (text.new ≡ text.old ++ spec.entry_line entry.now) }
{
    add_number(text, entry.turn)?;
    text.append(b" ")?;
    add_number(text, entry.document)?;
    text.append(b" ")?;
    add_call(text, entry.op.get(), entry.reply)?;
    text.append(b"\n")
}

// Adds entries of the history.
fn add_entries(text: &mut Page, entries: &[Entry]) -> Result<(), OutOfMemory>
    ensures { OnOk result (text.new ≡ text.old ++ flat_map spec.entry_line entries.now) }
{
    for entry in entries {
        add_entry(text, entry)?;
    }
    Ok(())
}

// The text of entries.
pub(crate) fn text_of_entries(alloc: Global, entries: &[Entry]) -> Result<Bytes, OutOfMemory>
    ensures { IfOk result (λ text. text ≡ flat_map spec.entry_line entries.now) }
{
    let mut text = Page::new(alloc);
    add_entries(&mut text, entries)?;
    text.into_text()
}
