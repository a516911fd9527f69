// A play: the book is opened, the documents are seated and played, and the book is closed.
ghost use Rattle.std.specs.Prelude.{◌≤◌, ◌+◌, ◌^◌, vec_capacity, vec_len, IfOk, OnErr};
ghost use Rattle.script_events.specs.Endings.{HasText};
ghost use Rattle.script_scenarios.specs.Valid.{IsValid};
ghost use Rattle.fetch_wire.specs.Wires.{over_link};
ghost use Rattle.play_links.specs.Links.{IsPlayOverLinks, WasRefused};
ghost use Rattle.play_seats.specs.Makers.{maker_of};
ghost use Rattle.play_seats.specs.Seated.{AreReady};
ghost use Rattle.play_links.specs.Unseated.{AreUnseated};
ghost use Rattle.play_links.specs.Refused.{NoneOrAllPlayed};
ghost use Rattle.play_definitions.specs.Plays.{IsPlay, IsPlayOver};

use book_turns::{Closed, TurnBook, TurnPass, TurnShare};
use link_traits::Links;
use play_definitions::{Driver, Played, Seating};
use play_faults::{law_faults_counted, law_faults_shown};
use play_links::SCRIPTED_THREADS;
use play_seats::{SimLinks, open_play, unseat};
use play_threads::play_all;
use script_events::has_text;
use script_scenarios::Scenario;
use std::alloc::Global;
use std::sync::Wait;
use std::thread::Threads;
use value_bytes::OutOfMemory;

// Plays each document on its seat, takes the links back, in order of documents, and closes the book.
fn play_seated<R: Threads + Wait + Sync, D: Driver + Sync, N: Links>(
    rt: &R,
    driver: &D,
    alloc: Global,
    scenario: &Scenario,
    base: u64,
    threads: usize,
    book: TurnBook,
    mut seats: Vec<Seating<N::Link, TurnPass>>,
    mut passes: Vec<TurnPass>,
    links: &mut N,
) -> Result<Played, OutOfMemory>
    requires valid { IsValid scenario.now }
    requires base { base ≤ 2 ^ 40 }
    requires ready { AreReady book.table.shared.table_id scenario.now passes.items seats.items }
    requires room { vec_len seats + vec_len passes ≤ vec_capacity passes }
    ensures played { IfOk result (λ played. AreUnseated N.Link.told (N.lent links.old)
        (N.lent links.new) (N.faults links.old) (N.faults links.new) seats.items (λ olds news. IsPlayOver
        (over_link N.Link.serves) scenario.entry.now base olds news played.transcripts played.history)) }
    ensures refused { OnErr result (AreUnseated N.Link.told (N.lent links.old)
        (N.lent links.new) (N.faults links.old) (N.faults links.new) seats.items
        (NoneOrAllPlayed (over_link N.Link.serves) scenario.entry.now base)) }
    ensures has_text { IfOk result (λ played. HasText played.transcripts) }
{
    let share = TurnShare { rt, book: &book };
    let played = play_all(
        rt, driver, alloc, scenario, base, &share, threads, &mut seats,
    );
    unseat(seats, links, &mut passes);
    let Closed { book: _, history } = book.close(passes);
    let transcripts = played?;
    if has_text(&transcripts) {
        Ok(Played {
            transcripts,
            history,
        })
    } else {
        Err(OutOfMemory)
    }
}

/// Plays a scenario over links, from a time in seconds on, which is at most 2^40, on at most so many threads, where
/// these can be made: each document over the link that is made for it and over one book, which opens with the
/// scenario's hosts. The links are made in order of documents, and taken back in the same
/// order, also where memory was refused.
///
/// `OutOfMemory` where memory was refused, to a document or to what surrounds them, or where a link could not
/// be made; then the links that were made were taken back in order of documents: they tell what they told when they
/// were made, or, where the documents were played, what their runs have left. The calls of those runs are one legal
/// history too.
pub fn play_over<R: Threads + Wait + Sync, D: Driver + Sync, N: Links>(
    rt: &R,
    driver: &D,
    alloc: Global,
    scenario: &Scenario,
    base: u64,
    threads: usize,
    links: &mut N,
) -> Result<Played, OutOfMemory>
    requires valid { IsValid scenario.now }
    requires base { base ≤ 2 ^ 40 }
    ensures played { IfOk result (λ played. IsPlayOverLinks (over_link N.Link.serves) N.Link.told
        (maker_of N.opening N.lent N.faults links.old) (maker_of N.opening N.lent N.faults links.new)
        scenario.entry.now base played.transcripts played.history) }
    ensures refused { OnErr result (WasRefused (over_link N.Link.serves) N.Link.told
        (maker_of N.opening N.lent N.faults links.old) (maker_of N.opening N.lent N.faults links.new)
        scenario.entry.now base) }
    ensures has_text { IfOk result (λ played. HasText played.transcripts) }
{
    law_faults_shown();
    law_faults_counted::<N::Link>();
    let open = open_play(alloc, scenario, links)?;
    play_seated(
        rt,
        driver,
        alloc,
        scenario,
        base,
        threads,
        open.book,
        open.seats,
        open.passes,
        links,
    )
}

/// Plays a scenario over its own servers, from its own time on, on at most `SCRIPTED_THREADS` threads. `OutOfMemory`
/// where memory was refused, to a document or to what surrounds them.
pub fn play_scripted<R: Threads + Wait + Sync, D: Driver + Sync>(
    rt: &R,
    driver: &D,
    alloc: Global,
    scenario: &Scenario,
) -> Result<Played, OutOfMemory>
    requires { IsValid scenario.now }
    ensures played { IfOk result (λ played. IsPlay scenario.entry.now played.transcripts played.history) }
    ensures has_text { IfOk result (λ played. HasText played.transcripts) }
{
    let mut links = SimLinks::new(scenario);
    play_over(
        rt,
        driver,
        alloc,
        scenario,
        scenario.now,
        SCRIPTED_THREADS,
        &mut links,
    )
}
