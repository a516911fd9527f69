// Documents that are played over links in memory. A row is a scenario of one document, what fails of its link, and
// the link's answers, with a tab between, as `links.rt` of `rows_links` says. Rows that follow each other, up to an
// empty line, are played one after another over one book. Of each is shown how often its link was asked and how often
// it failed, and then the text of all of them, with the book's history.
ghost use Rattle.std.specs.Prelude.{◌≤◌, ◌<◌, ◌+◌, ◌*◌, length, IfOk};
ghost use Rattle.script_scenarios.specs.Valid.{IsValid};

use crate::scenarios::scenario_in;
use book_calls::{Book, History, Share, SoloBook, SoloPass};
use link_traits::MemorySink;
use play_definitions::Driver;
use play_documents::ByFetches;
use play_fetch::OverLink;
use play_text::write_play;
use rows_links::{link_in, show_link};
use rows_shell::{Failed, Held, Shown};
use script_events::{Transcripts, has_text};
use script_scenarios::Scenario;
use std::alloc::Global;
use value_text::before_byte;

/// How many rows are played over one book at most.
const MOST_ROWS: usize = 64;

/// How many bytes the text of these rows has at most.
const ROOM: usize = 1_048_576;

// The scenario of a row, which has a document.
fn scenario_of(alloc: Global, line: &str) -> Result<Held<Scenario>, Failed>
    ensures valid { IfOk result (λ held. IsValid held.value) }
    ensures some { IfOk result (λ held. 0 < length held.value.documents) }
{
    let scenario = scenario_in(alloc, before_byte(line.as_bytes(), b'\t'))?;
    if scenario.value.documents.is_empty() {
        Err(Failed)
    } else {
        Ok(scenario)
    }
}

// Plays a row's document over its link, and tells of the link. The document's transcript is added to the
// others.
fn play_row<S: Share>(
    alloc: Global,
    line: &str,
    share: &S,
    pass: &mut S::Pass,
    transcripts: &mut Transcripts,
    shown: &mut Shown,
) -> Result<(), Failed>
    requires belongs { S.belongs share.now pass.old }
    requires left { 129024 ≤ (S.account pass.old).left }
    ensures belongs { S.belongs share.now pass.new }
    ensures few { (S.account pass.old).left ≤ (S.account pass.new).left + 129024 }
{
    let mut link = Held {
        value: link_in(alloc, line)?,
    };
    let held = scenario_of(alloc, line)?;
    let scenario = &held.value;
    let now = scenario.now;
    let driver = ByFetches { fetcher: OverLink };
    let transcript = driver.drive(alloc, scenario, 0, now, share, pass, &mut link.value);
    show_link(&link.value, shown);
    transcripts.push(transcript)?;
    Ok(())
}

// Plays rows one after another over a share of one book.
fn play_each<S: Share>(
    alloc: Global,
    rows: &[&str],
    share: &S,
    pass: &mut S::Pass,
    transcripts: &mut Transcripts,
    shown: &mut Shown,
) -> Result<(), Failed>
    requires belongs { S.belongs share.now pass.old }
    requires left { 129024 * length rows.now ≤ (S.account pass.old).left }
{
    for row in rows {
        play_row(alloc, row, share, pass, transcripts, shown)?;
    }
    Ok(())
}

// The history of a pass that is over.
pub(crate) fn history_of(share: SoloBook, pass: SoloPass) -> History {
    let (_, history) = share.close(pass);
    history
}

// The text of plays, with the history.
pub(crate) fn show(
    alloc: Global,
    transcripts: &Transcripts,
    history: &History,
    shown: &mut Shown,
) -> Result<(), Failed> {
    if !has_text(transcripts) {
        return Err(Failed);
    }
    let mut sink = MemorySink::new(alloc, ROOM, Vec::new(alloc), Vec::new(alloc))?;
    if write_play(alloc, transcripts, history, &mut sink).is_err() {
        return Err(Failed);
    }
    shown.add(sink.taken());
    Ok(())
}

/// Plays rows one after another over one book that nobody has written into yet, 64 of them at most.
pub fn play_group<R: AllocGlobal>(rt: &R, rows: &[&str], shown: &mut Shown) -> Result<(), Failed> {
    if rows.len() > MOST_ROWS {
        return Err(Failed);
    }
    let alloc = rt.alloc();
    let (share, mut pass) = SoloBook::new(alloc, Book::new(alloc));
    let mut transcripts = Transcripts::new(alloc);
    if play_each(alloc, rows, &share, &mut pass, &mut transcripts, shown).is_err() {
        shown.fail();
    }
    let history = history_of(share, pass);
    show(alloc, &transcripts, &history, shown)
}
