// The printed text of the reports of a play.
ghost use Rattle.std.specs.Prelude.{◌≡◌, ◌++◌, length, OnOk, IfOk, true};
ghost use Rattle.play_text.specs.Writes.{Writes};
ghost use Rattle.program_cspreport.specs.Text as spec;

use book_calls::Entry;
use link_traits::Sink;
use play_text::{Failure, Page, add_event, add_number, write_entries, write_text};
use report_delivery::{Delivered, DeliveredEnd};
use report_play::Reported;
use script_events::{Event, Transcript};
use script_filling::is_result;
use std::alloc::Global;
use value_bytes::{Bytes, OutOfMemory};

// Adds how a delivery ended.
fn add_ending(text: &mut Page, ending: DeliveredEnd) -> Result<(), OutOfMemory>
    ensures { OnOk result (text.new ≡ text.old ++ spec.ending_line ending) }
{
    match ending {
        DeliveredEnd::Finished => text.append(b"end finished\n"),
        DeliveredEnd::Reports => text.append(b"end limit reports\n"),
        DeliveredEnd::Text => text.append(b"end limit text\n"),
    }
}

// Adds the line of a report's number, where one begins.
fn add_begun(text: &mut Page, begins: bool, number: usize) -> Result<(), OutOfMemory>
    ensures { OnOk result (text.new ≡ text.old ++ spec.begun_line begins number) }
{
    if !begins {
        return Ok(());
    }
    text.append(b"report ")?;
    add_number(text, number)?;
    text.append(b"\n")
}

// Adds the lines of the reports that show these events.
fn add_reports(text: &mut Page, events: &[Event]) -> Result<(), OutOfMemory>
    ensures { OnOk result (text.new ≡ text.old ++ spec.reports_text true 0 events.now) }
{
    let mut begins = true;
    let mut number = 0usize;
    for event in events {
        add_begun(text, begins, number)?;
        add_event(text, event)?;
        begins = is_result(event);
        if begins {
            number += 1;
        }
    }
    Ok(())
}

// Adds the text of a document with its reports.
fn add_delivered(
    text: &mut Page,
    transcript: &Transcript,
    delivered: &Delivered,
) -> Result<(), OutOfMemory>
    ensures { OnOk result (text.new ≡ text.old ++ spec.delivered_text transcript.now delivered.now) }
{
    text.append(b"document ")?;
    add_number(text, transcript.document)?;
    text.append(b" ")?;
    text.append(transcript.key.as_slice())?;
    text.append(b"\n")?;
    add_reports(text, delivered.events.as_slice())?;
    add_ending(text, delivered.ending)
}

// The text of a document with its reports.
fn text_of(
    alloc: Global,
    transcript: &Transcript,
    delivered: &Delivered,
) -> Result<Bytes, OutOfMemory>
    ensures { IfOk result (λ text. text ≡ spec.delivered_text transcript.now delivered.now) }
{
    let mut text = Page::new(alloc);
    add_delivered(&mut text, transcript, delivered)?;
    text.into_text()
}

// Writes each document with its reports, a document at a time.
fn write_documents<K: Sink>(
    alloc: Global,
    transcripts: &[Transcript],
    delivereds: &[Delivered],
    sink: &mut K,
) -> Result<(), Failure>
    requires { length transcripts.now ≡ length delivereds.now }
    ensures { Writes (K.takes sink.old) (K.takes sink.new)
        (spec.documents_text transcripts.now delivereds.now) result }
{
    for index in 0..delivereds.len() {
        let text = text_of(alloc, &transcripts[index], &delivereds[index])?;
        write_text(sink, text.as_slice())?;
    }
    Ok(())
}

// Writes the text of the reports of a play, piece by piece.
fn write_pieces<K: Sink>(
    alloc: Global,
    transcripts: &[Transcript],
    delivereds: &[Delivered],
    history: &[Entry],
    sink: &mut K,
) -> Result<(), Failure>
    requires { length transcripts.now ≡ length delivereds.now }
    ensures { Writes (K.takes sink.old) (K.takes sink.new)
        (spec.report_text transcripts.now delivereds.now history.now) result }
{
    write_text(sink, b"cspreport 1\n")?;
    write_documents(alloc, transcripts, delivereds, sink)?;
    write_text(sink, b"history\n")?;
    write_entries(alloc, history, sink)?;
    write_text(sink, b"done\n")
}

/// Writes the text of the reports of a play. `Fault` and `TookNothing` are the sink's; `OutOfMemory` where memory was
/// refused.
pub fn write_reports<K: Sink>(
    alloc: Global,
    reported: &Reported,
    sink: &mut K,
) -> Result<(), Failure>
    requires { length reported.now.transcripts ≡ length reported.now.reports }
    ensures { Writes (K.takes sink.old) (K.takes sink.new) (spec.report_text reported.now.transcripts
        reported.now.reports reported.now.history) result }
{
    write_pieces(
        alloc,
        reported.transcripts.as_slice(),
        reported.reports.as_slice(),
        reported.history.as_slice(),
        sink,
    )
}
