// The summary of a play: its counts, a line each.
ghost use Rattle.std.specs.Prelude.{◌≡◌, ◌++◌, codes, length, filter, IfOk, OnOk};
ghost use Rattle.play_text.specs.Private.Kinds.{is_of};
ghost use Rattle.play_text.specs.Writes.{Writes};
ghost use Rattle.play_text.specs.Summary as spec;
ghost use Rattle.script_events.specs.Endings.{HasText};
ghost use Rattle.script_lines.specs.Lines.{line};

use crate::failure::Failure;
use crate::lines::add_number;
use crate::page::Page;
use crate::play::write_text;
use book_calls::{Entry, History};
use itoa::Integer;
use link_traits::Sink;
use script_events::{Event, Transcript, Transcripts};
use std::alloc::Global;
use value_bytes::{Bytes, OutOfMemory};
use value_requests::Outcome;

// A kind of events that are counted.
#[derive(Clone, Copy)]
enum Kind {
    Fetch,
    Request,
    Response,
    Error,
}

impl Kind {
    // Whether the event is of this kind.
    fn is_of(self, event: &Event) -> bool
        ensures { result ≡ is_of self event.now }
    {
        match (self, event) {
            (Kind::Fetch, Event::Fetch(_)) => true,
            (Kind::Request, Event::Sent(_)) => true,
            (Kind::Response, Event::Result(outcome)) => matches!(outcome.get(), Outcome::Answer(_)),
            (Kind::Error, Event::Result(outcome)) => matches!(outcome.get(), Outcome::Error(_)),
            _ => false,
        }
    }
}

// How many events of a document are of the kind.
fn count_in(events: &[Event], kind: Kind) -> usize
    ensures { result ≡ length (filter (is_of kind) events.now) }
{
    events.iter().filter(|event| kind.is_of(event)).count()
}

// How many events of all documents are of the kind. There are fewer than 2^64 documents, and each has
// fewer than 2^64 events, so the sum fits.
fn count(transcripts: &[Transcript], kind: Kind) -> u128
    ensures { result ≡ spec.event_count (is_of kind) transcripts.now }
{
    let mut count = 0;
    for transcript in transcripts {
        count += count_in(transcript.events.as_slice(), kind) as u128;
    }
    count
}

// Adds a line of the summary.
fn add_count<I: Integer>(text: &mut Page, label: &[u8], count: I) -> Result<(), OutOfMemory>
    ensures { OnOk result (text.new ≡ text.old ++ line (label.now ++ codes " " ++ I.text count)) }
{
    text.append(label)?;
    text.append(b" ")?;
    add_number(text, count)?;
    text.append(b"\n")
}

// The text of the summary.
fn text_of(
    alloc: Global,
    n: u32,
    transcripts: &[Transcript],
    history: &[Entry],
) -> Result<Bytes, OutOfMemory>
    ensures { IfOk result (λ text. text ≡ spec.summary_text n transcripts.now history.now) }
{
    let mut text = Page::new(alloc);
    add_count(&mut text, b"gen", n)?;
    add_count(&mut text, b"documents", transcripts.len())?;
    add_count(&mut text, b"fetches", count(transcripts, Kind::Fetch))?;
    add_count(&mut text, b"requests", count(transcripts, Kind::Request))?;
    add_count(&mut text, b"calls", history.len())?;
    add_count(&mut text, b"responses", count(transcripts, Kind::Response))?;
    add_count(&mut text, b"errors", count(transcripts, Kind::Error))?;
    text.into_text()
}

// Makes the text of the summary and writes it.
fn put_summary<K: Sink>(
    alloc: Global,
    n: u32,
    transcripts: &[Transcript],
    history: &[Entry],
    sink: &mut K,
) -> Result<(), Failure>
    ensures { Writes (K.takes sink.old) (K.takes sink.new)
        (spec.summary_text n transcripts.now history.now) result }
{
    let text = text_of(alloc, n, transcripts, history)?;
    write_text(sink, text.as_slice())
}

/// Writes the summary of the play of `n` generated documents, seven lines: `n`, how many documents the
/// play has, how many fetches started, how many requests were sent, how many calls the history of the
/// shared book has, and how many fetches came to a response and to a network error. The counts are over
/// all documents, and exact.
///
/// After a failure the sink has taken a first part of the text: `Fault` where the sink failed,
/// `TookNothing` where it took nothing of a piece that was not empty, and `OutOfMemory` where memory was
/// refused.
pub fn write_summary<K: Sink>(
    alloc: Global,
    n: u32,
    transcripts: &Transcripts,
    history: &History,
    sink: &mut K,
) -> Result<(), Failure>
    requires { HasText transcripts.now }
    ensures { Writes (K.takes sink.old) (K.takes sink.new) (spec.summary_text n transcripts.now history.now) result }
{
    put_summary(alloc, n, transcripts.as_slice(), history.as_slice(), sink)
}
