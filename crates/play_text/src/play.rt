// The printed text of a play: each document's transcript, and the history.
ghost use Rattle.std.specs.Prelude.{◌≡◌, ◌++◌, IfOk, OnOk};
ghost use Rattle.std.specs.List.{flat_map};
ghost use Rattle.script_events.specs.Endings.{HasText};
ghost use Rattle.script_lines.specs.Lines.{event_text};
ghost use Rattle.play_text.specs.Text as spec;
ghost use Rattle.play_text.specs.Writes.{Writes};

use crate::failure::Failure;
use crate::history::text_of_entries;
use crate::lines::{add_event, add_number};
use crate::page::Page;
use book_calls::{Entry, History};
use link_traits::{Sink, write_whole};
use script_events::{Ending, Event, Transcript, Transcripts};
use std::alloc::Global;
use value_bytes::{Bytes, OutOfMemory};

// How many entries of the history are written together.
const TOGETHER: usize = 256;

// Adds how a document ended.
fn add_ending(text: &mut Page, ending: Ending) -> Result<(), OutOfMemory>
    ensures { OnOk result (text.new ≡ text.old ++ spec.ending_line ending) }
{
    match ending {
        Ending::Finished => text.append(b"end finished\n"),
        Ending::Fetches => text.append(b"end limit fetches\n"),
        Ending::Commands => text.append(b"end limit commands\n"),
        Ending::Text => text.append(b"end limit text\n"),
        // A play of such a document has no text.
        Ending::Memory => Ok(()),
    }
}

// Adds the lines of the events.
fn add_events(text: &mut Page, events: &[Event]) -> Result<(), OutOfMemory>
    ensures { OnOk result (text.new ≡ text.old ++ flat_map event_text events.now) }
{
    for event in events {
        add_event(text, event)?;
    }
    Ok(())
}

// Adds the text of a document.
fn add_transcript(text: &mut Page, transcript: &Transcript) -> Result<(), OutOfMemory>
    ensures { OnOk result (text.new ≡ text.old ++ spec.transcript_text transcript.now) }
{
    text.append(b"document ")?;
    add_number(text, transcript.document)?;
    text.append(b" ")?;
    text.append(transcript.key.as_slice())?;
    text.append(b"\n")?;
    add_events(text, transcript.events.as_slice())?;
    add_ending(text, transcript.ending)
}

// The text of a document.
fn text_of(alloc: Global, transcript: &Transcript) -> Result<Bytes, OutOfMemory>
    ensures { IfOk result (λ text. text ≡ spec.transcript_text transcript.now) }
{
    let mut text = Page::new(alloc);
    add_transcript(&mut text, transcript)?;
    text.into_text()
}

/// Writes a text whole. After a failure the sink has taken a first part of it: `Fault` where the sink failed, and
/// `TookNothing` where it took nothing of a piece that was not empty.
pub fn write_text<K: Sink>(sink: &mut K, text: &[u8]) -> Result<(), Failure>
    ensures { Writes (K.takes sink.old) (K.takes sink.new) text.now result }
{
    write_whole(sink, text)?;
    Ok(())
}

// Writes the text of each document, a document at a time.
fn put_transcripts<K: Sink>(
    alloc: Global,
    transcripts: &[Transcript],
    sink: &mut K,
) -> Result<(), Failure>
    ensures { Writes (K.takes sink.old) (K.takes sink.new) (flat_map spec.transcript_text transcripts.now) result }
{
    for transcript in transcripts {
        let text = text_of(alloc, transcript)?;
        write_text(sink, text.as_slice())?;
    }
    Ok(())
}

/// Writes the text of a history: a line for each entry, 256 lines at a time. After a failure the sink has taken a first
/// part of it: `Fault` where the sink failed, `TookNothing` where it took nothing of a piece that was not empty, and
/// `OutOfMemory` where memory was refused.
pub fn write_entries<K: Sink>(alloc: Global, entries: &[Entry], sink: &mut K) -> Result<(), Failure>
    ensures { Writes (K.takes sink.old) (K.takes sink.new) (flat_map spec.entry_line entries.now) result }
{
    let mut rest = entries;
    while !rest.is_empty() {
        let (first, others) = rest.split_at(rest.len().min(TOGETHER));
        let text = text_of_entries(alloc, first)?;
        write_text(sink, text.as_slice())?;
        rest = others;
    }
    Ok(())
}

// Writes the text of the play.
fn put_play<K: Sink>(
    alloc: Global,
    transcripts: &[Transcript],
    history: &[Entry],
    sink: &mut K,
) -> Result<(), Failure>
    ensures { Writes (K.takes sink.old) (K.takes sink.new) (spec.play_text transcripts.now history.now) result }
{
    write_text(sink, b"fetchplay 1\n")?;
    put_transcripts(alloc, transcripts, sink)?;
    write_text(sink, b"history\n")?;
    write_entries(alloc, history, sink)?;
    write_text(sink, b"done\n")
}

/// Writes the text of a play: its documents, a document at a time, and the history. After a failure
/// the sink has taken a first part of the text: `Fault` where the sink failed, `TookNothing` where it
/// took nothing of a piece that was not empty, and `OutOfMemory` where memory was refused.
pub fn write_play<K: Sink>(
    alloc: Global,
    transcripts: &Transcripts,
    history: &History,
    sink: &mut K,
) -> Result<(), Failure>
    requires { HasText transcripts.now }
    ensures { Writes (K.takes sink.old) (K.takes sink.new) (spec.play_text transcripts.now history.now) result }
{
    put_play(alloc, transcripts.as_slice(), history.as_slice(), sink)
}
