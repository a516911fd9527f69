// The reports of all documents, one document after another.
ghost use Rattle.std.specs.Prelude.{◌≡◌, length, vec_len, IfOk};
ghost use Rattle.std.specs.List.{All};
ghost use Rattle.book_calls.specs.Entries.{HasTurnsFrom};
ghost use Rattle.fetch_wire.specs.Wires.{over_link};
ghost use Rattle.report_play.specs.Private.Delivered.{AreDelivered, CanReport, IsDelivered};
ghost use Rattle.script_scenarios.specs.Valid.{IsValid};

use book_calls::{Book, History, SoloBook};
use link_traits::Link;
use report_delivery::{Delivered, deliver};
use script_events::{Transcript, Transcripts};
use script_scenarios::Scenario;
use std::alloc::Global;
use value_bytes::{Items, OutOfMemory};

// The reports of one document, and the book and the history after them.
#[derive(Drop)]
struct Delivery {
    delivered: Delivered,
    book: Book,
    history: History,
}

/// The reports of all documents, and the history after them.
#[derive(Drop)]
pub(crate) struct Deliveries {
    pub(crate) reports: Items<Delivered>,
    pub(crate) history: History,
}

// Delivers the reports of one document over its link, with the book for themselves.
fn deliver_over<L: Link>(
    alloc: Global,
    scenario: &Scenario,
    transcript: &Transcript,
    book: Book,
    history: History,
    link: &mut L,
) -> Result<Delivery, OutOfMemory>
    requires valid { IsValid scenario.now }
    requires report { CanReport scenario.now transcript.now }
    requires turns { HasTurnsFrom 0 history }
    ensures { IfOk result (λ one. IsDelivered (over_link L.serves) L.told scenario.entry.now transcript.entry.now
        book history link.old one.delivered one.book one.history) }
{
    let (share, mut pass) = SoloBook::resumed(book, history, transcript.document);
    let delivered = deliver(alloc, scenario, transcript, &share, &mut pass, link)?;
    let (book, history) = share.close(pass);
    Ok(Delivery {
        delivered,
        book,
        history,
    })
}

// Delivers the reports of each document over its link, in order of documents. Book and history go from one to the next.
pub(crate) fn deliver_all<L: Link + Drop>(
    alloc: Global,
    scenario: &Scenario,
    transcripts: &Transcripts,
    links: Vec<L>,
    mut book: Book,
    mut history: History,
) -> Result<Deliveries, OutOfMemory>
    requires valid { IsValid scenario.now }
    requires report { All (CanReport scenario.now) transcripts.now }
    requires many { vec_len links ≡ length transcripts.now }
    requires turns { HasTurnsFrom 0 history }
    ensures { IfOk result (λ all. AreDelivered (over_link L.serves) L.told scenario.entry.now book history
        transcripts.entry.now links.items all.reports all.history) }
{
    let mut reports = Items::new(alloc);
    let mut number = 0usize;
    for mut link in links {
        let transcript = transcripts.at(number);
        let one = deliver_over(alloc, scenario, transcript, book, history, &mut link)?;
        reports.push(one.delivered)?;
        book = one.book;
        history = one.history;
        number += 1;
    }
    Ok(Deliveries { reports, history })
}
