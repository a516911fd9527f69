// A play of documents one after another.
ghost use Rattle.std.specs.Prelude.{◌≡◌, ◌+◌, ◌<◌, length, IfOk};
ghost use Rattle.book_calls.specs.Entries.{AreInOrderFrom, book_after};
ghost use Rattle.play_definitions.specs.Plays.{IsPlay, opening_book};
ghost use Rattle.play_serial.specs.Private.SoFar.{CameSoFar};
ghost use Rattle.script_events.specs.Endings.{HasText};
ghost use Rattle.script_scenarios.specs.Valid.{IsValid};

use book_calls::{Book, History, SoloBook};
use play_definitions::{Driver, Played};
use play_documents::ByFetches;
use play_fetch::OverLink;
use play_seats::{SimLink, opened};
use script_events::{Ending, Transcripts};
use script_scenarios::Scenario;
use std::alloc::Global;
use value_bytes::OutOfMemory;

// A play so far: the book, its history, and what the documents have shown.
#[derive(Drop)]
struct SoFar {
    book: Book,
    history: History,
    transcripts: Transcripts,
}

// Plays the document of this number, with the book for itself.
fn play_next(
    alloc: Global,
    scenario: &Scenario,
    number: u32,
    so_far: SoFar,
) -> Result<SoFar, OutOfMemory>
    requires valid { IsValid scenario.now }
    requires one { number < length scenario.now.documents }
    requires before { CameSoFar scenario.now number so_far }
    ensures { IfOk result (CameSoFar scenario.entry.now (number + 1)) }
{
    let SoFar {
        book,
        history,
        mut transcripts,
    } = so_far;
    let (share, mut pass) = SoloBook::resumed(book, history, number);
    let mut link = SimLink::new(scenario);
    let driver = ByFetches { fetcher: OverLink };
    let transcript = driver.drive(
        alloc,
        scenario,
        number,
        scenario.now,
        &share,
        &mut pass,
        &mut link,
    );
    let (book, history) = share.close(pass);
    if transcript.ending == Ending::Memory {
        return Err(OutOfMemory);
    }
    transcripts.push(transcript)?;
    Ok(SoFar {
        book,
        history,
        transcripts,
    })
}

/// A play of documents one after another, and the book that it leaves.
#[derive(Drop)]
pub struct WithBook {
    pub played: Played,
    pub book: Book,
}

/// Plays as `play_in_turn`, and gives the book that the play leaves, too.
pub fn play_with_book(alloc: Global, scenario: &Scenario) -> Result<WithBook, OutOfMemory>
    requires { IsValid scenario.now }
    ensures played { IfOk result (λ left. IsPlay scenario.entry.now left.played.transcripts left.played.history) }
    ensures in_order { IfOk result (λ left. AreInOrderFrom 0 left.played.history) }
    ensures has_text { IfOk result (λ left. HasText left.played.transcripts) }
    ensures book { IfOk result (λ left. left.book
        ≡ book_after (opening_book scenario.entry.now) left.played.history) }
{
    let book = opened(alloc, scenario.hosts.as_slice())?;
    let history = History::new(alloc);
    let transcripts = Transcripts::new(alloc);
    let mut so_far = SoFar {
        book,
        history,
        transcripts,
    };
    for number in 0..scenario.documents.len() {
        let number = number as u32;
        so_far = play_next(alloc, scenario, number, so_far)?;
    }
    let SoFar {
        book,
        history,
        transcripts,
    } = so_far;
    Ok(WithBook {
        played: Played {
            transcripts,
            history,
        },
        book,
    })
}

/// Plays a scenario over its own servers, from its own time on: its documents one after another, over one book, which
/// opens with the scenario's hosts. It is a play as `play_scripted` makes one, and returns.
/// `OutOfMemory` where memory was refused, to a document or to what surrounds them.
pub fn play_in_turn(alloc: Global, scenario: &Scenario) -> Result<Played, OutOfMemory>
    requires { IsValid scenario.now }
    ensures played { IfOk result (λ played. IsPlay scenario.entry.now played.transcripts played.history) }
    ensures in_order { IfOk result (λ played. AreInOrderFrom 0 played.history) }
    ensures has_text { IfOk result (λ played. HasText played.transcripts) }
{
    let left = play_with_book(alloc, scenario)?;
    Ok(left.played)
}
