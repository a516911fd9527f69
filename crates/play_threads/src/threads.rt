// Documents on threads, by fork and join.
ghost use Rattle.std.specs.Prelude.{[], ℕ, ◌<◌, ◌^◌, ◌≡◌, ◌≤◌, IfOk, OnErr, length, map, slice_index_or, vec_capacity};
ghost use Rattle.std.specs.Prelude.{vec_len};
ghost use Rattle.play_threads.specs.Private.Rows.{CanPlay, RowCameTo, seatings_of, transcripts_of};
ghost use Rattle.play_definitions.specs.Seats.{AreRefused, AreSeated, DocumentCameTo, seat_of};
ghost use Rattle.play_threads.specs.Words.{All, EachDocument, IsValid, over_link, range_with_len};

use crate::seating::Row;
use book_calls::Share;
use link_traits::Link;
use play_definitions::{Driver, Seating};
use script_events::{Ending, Transcript, Transcripts};
use script_scenarios::{Scenario, law_scenario_is_shared};
use std::alloc::Global;
use std::sync::Wait;
use std::thread::Threads;
use std::{mem, thread};
use value_bytes::{Bytes, Items, OutOfMemory};

// A document, in its row.
fn play_row<D: Driver, S: Share, L: Link>(
    driver: &D,
    alloc: Global,
    scenario: &Scenario,
    number: u32,
    base: u64,
    share: &S,
    row: &mut Row<L, S::Pass>,
)
    requires scenario { IsValid scenario.now }
    requires base { base ≤ 2 ^ 40 }
    requires row { CanPlay (S.belongs share.now) (seat_of S.account L.told) scenario.now number row.old }
    ensures { RowCameTo (S.belongs share.now) (seat_of S.account L.told) (over_link L.serves) scenario.entry.now base
        number row.old row.new }
{
    let seat = &mut row.seating;
    row.transcript = driver.drive(
        alloc,
        scenario,
        number,
        base,
        share,
        &mut seat.pass,
        &mut seat.link,
    );
}

// The documents in their rows, on at most so many threads, of which there is one at least.
fn play_rows<R: Threads + Wait + Sync, D: Driver + Sync, S: Share + Sync, L: Link + Send>(
    rt: &R,
    driver: &D,
    alloc: Global,
    scenario: &Scenario,
    base: u64,
    share: &S,
    threads: usize,
    rows: &mut [Row<L, S::Pass>],
)
where
    S::Pass: Send,
    requires scenario { IsValid scenario.now }
    requires base { base ≤ 2 ^ 40 }
    requires rows { (i : ℕ) (d : _) → i < length rows.old
        → CanPlay (S.belongs share.now) (seat_of S.account L.told) scenario.now i (slice_index_or rows.old i d) }
    ensures { (i : ℕ) (d : _) → i < length rows.old
        → RowCameTo (S.belongs share.now) (seat_of S.account L.told) (over_link L.serves) scenario.entry.now base i
        (slice_index_or rows.old i d) (slice_index_or rows.new i d) }
{
    law_scenario_is_shared(scenario);
    thread::for_each_mut(
        rt,
        rows,
        threads.max(1),
        &|number: usize, row: &mut Row<L, S::Pass>|
            requires { IsValid scenario.now × (base ≤ 2 ^ 40) × CanPlay (S.belongs share.now)
                (seat_of S.account L.told) scenario.now number row.now }
            ensures { RowCameTo (S.belongs share.entry.now) (seat_of S.account L.told) (over_link L.serves)
                scenario.entry.now base number row.entry.now row.exit.now }
        { play_row(driver, alloc, scenario, number as u32, base, share, row) },
    );
}

// Moves the seats into rows, in order. Where memory is refused they are as they were.
fn to_rows<L: Drop, P: Drop>(
    alloc: Global,
    seats: &mut Vec<Seating<L, P>>,
) -> Result<Vec<Row<L, P>>, OutOfMemory>
    ensures ok { IfOk result (λ rows. (seatings_of rows.items ≡ seats.old.items) × (seats.new.items ≡ [])
        × (vec_len rows ≤ vec_capacity seats.new)) }
    ensures err { OnErr result (seats.new.items ≡ seats.old.items) }
{
    let mut rows = Vec::with_capacity(alloc, seats.len())?;
    let back = Vec::with_capacity(alloc, seats.len())?;
    for seating in mem::replace(seats, back) {
        let transcript = Transcript {
            document: 0,
            key: Bytes::new(alloc),
            events: Items::new(alloc),
            ending: Ending::Memory,
            clock: 0,
        };
        rows.push_reserved(Row {
            seating,
            transcript,
        });
    }
    Ok(rows)
}

// Moves the seats back, and the transcripts out, in order.
fn from_rows<L: Drop, P: Drop>(
    rows: Vec<Row<L, P>>,
    seats: &mut Vec<Seating<L, P>>,
    transcripts: &mut Vec<Transcript>,
)
    requires empty { (seats.old.items ≡ []) × (transcripts.old.items ≡ []) }
    requires room { (vec_len rows ≤ vec_capacity seats.old) × (vec_len rows ≤ vec_capacity transcripts.old) }
    ensures seats { seats.new.items ≡ seatings_of rows.items }
    ensures transcripts { transcripts.new.items ≡ transcripts_of rows.items }
{
    for row in rows {
        seats.push_reserved(row.seating);
        transcripts.push_reserved(row.transcript);
    }
}

// The transcripts as a list of them.
fn listed(alloc: Global, transcripts: Vec<Transcript>) -> Result<Transcripts, OutOfMemory>
    ensures { IfOk result (λ list. list ≡ transcripts.items) }
{
    let mut list = Transcripts::new(alloc);
    for transcript in transcripts {
        list.push(transcript)?;
    }
    Ok(list)
}

/// Plays the documents of a scenario, with what plays one, each on its own seat, from a time in seconds on, which is at
/// most 2^40. There is one seat for each document, in their order, whose pass is for the document of that number with
/// 129,024 calls left. At most so many threads play them, where these can be made: each plays some documents, one after
/// the other.
///
/// The transcripts come in the order of the documents. Each, with its document's seat before and after the play, is
/// that of a run as the driver makes one, except that bytes may be left over its link. `OutOfMemory` where memory was
/// refused outside of the documents' runs: then none was played and the seats tell what they told, or all were played,
/// and the calls that they made stay made.
pub fn play_all<R: Threads + Wait + Sync, D: Driver + Sync, S: Share + Sync, L: Link + Send + Drop>(
    rt: &R,
    driver: &D,
    alloc: Global,
    scenario: &Scenario,
    base: u64,
    share: &S,
    threads: usize,
    seats: &mut Vec<Seating<L, S::Pass>>,
) -> Result<Transcripts, OutOfMemory>
where
    S::Pass: Send + Drop,
    requires scenario { IsValid scenario.now }
    requires base { base ≤ 2 ^ 40 }
    requires seats { AreSeated scenario.now.documents (map (seat_of S.account L.told) seats.old.items) }
    requires belong { All (λ s. S.belongs share.now s.pass) seats.old.items }
    ensures played { IfOk result (EachDocument (DocumentCameTo (over_link L.serves) scenario.entry.now base) 0
        scenario.entry.now.documents (map (seat_of S.account L.told) seats.old.items)
        (map (seat_of S.account L.told) seats.new.items)) }
    ensures refused { OnErr result (AreRefused (over_link L.serves) scenario.entry.now base
        (map (seat_of S.account L.told) seats.old.items) (map (seat_of S.account L.told) seats.new.items)) }
    ensures belong { All (λ s. S.belongs share.now s.pass) seats.new.items }
    ensures documents { map (λ s. (S.account s.pass).document) seats.new.items
        ≡ range_with_len 0 (length scenario.entry.now.documents) }
{
    let mut transcripts = Vec::with_capacity(alloc, seats.len())?;
    let mut rows = to_rows(alloc, seats)?;
    play_rows(
        rt,
        driver,
        alloc,
        scenario,
        base,
        share,
        threads,
        rows.as_mut_slice(),
    );
    from_rows(rows, seats, &mut transcripts);
    listed(alloc, transcripts)
}
