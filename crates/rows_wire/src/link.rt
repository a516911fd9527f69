// Links in memory. A row is `link ROOM ASK RECEIVE ANSWERS CALLS`: how many bytes of room there are for
// asks, which ask and which receive fails, counted from 1, the answers, with `/` between them and `,`
// between the pieces of one, and the calls: `ask=TEXT`, `receive=COUNT` or `hang_up`.
use link_traits::{Link, Links, MemoryLink, MemoryLinks, Routes, Target};
use rows_shell::{Failed, Held, Row, Shown, named, number, texts_between};
use std::alloc::Global;
use value_bytes::{Bytes, BytesList};
use value_text::{after_byte, before_byte};

/// How many bytes a receive asks for at most.
const BUFFER: usize = 16;

/// The calls of a link.
#[derive(Clone, Copy)]
enum Call {
    Ask,
    Receive,
    HangUp,
}

/// Their names.
const CALLS: [(&[u8], Call); 3] = [
    (b"ask", Call::Ask),
    (b"receive", Call::Receive),
    (b"hang_up", Call::HangUp),
];

// The answers of a link, each the list of its pieces.
fn answers_in(alloc: Global, text: &[u8]) -> Result<Vec<BytesList>, Failed> {
    let mut answers = Vec::new(alloc);
    for answer in texts_between(alloc, text, b'/')?.as_slice() {
        answers.push(texts_between(alloc, answer.as_slice(), b',')?)?;
    }
    Ok(answers)
}

// The number of the call that fails, alone in a list.
fn failing_in(alloc: Global, digits: &[u8]) -> Result<Vec<u64>, Failed> {
    let mut failing = Vec::new(alloc);
    failing.push(number(digits, u64::MAX)?)?;
    Ok(failing)
}

// The link of a row's first four words.
fn link_of(alloc: Global, row: &Row) -> Result<MemoryLink, Failed> {
    let room = number(row.text(0), u64::from(u32::MAX))? as usize;
    let asks = failing_in(alloc, row.text(1))?;
    let receives = failing_in(alloc, row.text(2))?;
    let answers = answers_in(alloc, row.text(3))?;
    Ok(MemoryLink::new(alloc, answers, room, asks, receives)?)
}

// The links of which that of a row is the only one.
fn links_of(alloc: Global, row: &Row) -> Result<MemoryLinks, Failed> {
    let mut links = Vec::new(alloc);
    links.push(link_of(alloc, row)?)?;
    Ok(MemoryLinks::new(alloc, links)?)
}

// Asks, and shows what came of it.
fn ask(link: &mut MemoryLink, text: &[u8], shown: &mut Shown) {
    let Ok(origin) = Bytes::of(shown.alloc(), b"http://a") else {
        shown.fail();
        return;
    };
    match link.ask(&Target { origin }, text) {
        Ok(()) => shown.add(b"asked, "),
        Err(_) => shown.add(b"failed, "),
    }
}

// Receives so many bytes at most, and shows them and how many they are.
fn receive(link: &mut MemoryLink, count: usize, shown: &mut Shown) {
    let mut buffer = [0u8; BUFFER];
    let room = count.min(BUFFER);
    match link.recv(&mut buffer[..room]) {
        Ok(count) => {
            shown.add(&buffer[..count.min(room)]);
            shown.add_count(b" ", count);
            shown.add(b", ");
        }
        Err(_) => shown.add(b"failed, "),
    }
}

// Makes a call, and shows what it answers.
fn make_call(link: &mut MemoryLink, written: &[u8], shown: &mut Shown) -> Result<(), Failed> {
    let text = after_byte(written, b'=');
    match named(&CALLS, before_byte(written, b'='))? {
        Call::Ask => ask(link, text, shown),
        Call::Receive => receive(link, number(text, BUFFER as u64)? as usize, shown),
        Call::HangUp => link.hang_up(),
    }
    Ok(())
}

// Makes a row's calls, and shows what they answer, how many asks were kept and faults counted.
fn make_calls(
    alloc: Global,
    link: &mut MemoryLink,
    row: &Row,
    shown: &mut Shown,
) -> Result<(), Failed> {
    for index in 4..row.len() {
        make_call(link, row.text(index), shown)?;
    }
    shown.add_count(b"asks ", link.asks(alloc)?.len());
    shown.add(b", faults ");
    shown.add_number(link.faults());
    Ok(())
}

// What the calls of a row answer over a link that is made, and how many links were taken back: that one, and none from
// elsewhere.
fn play_over(
    alloc: Global,
    links: &mut MemoryLinks,
    routes: &Routes,
    row: &Row,
    shown: &mut Shown,
) -> Result<(), Failed> {
    let mut link = links.make(alloc, 0, routes)?;
    if make_calls(alloc, &mut link, row, shown).is_err() {
        shown.fail();
    }
    let is_last = links.make(alloc, 1, routes).is_err();
    links.take_back(link);
    links.take_back(link_of(alloc, row)?);
    shown.add_count(b", links ", links.taken_back().len());
    shown.add(b" with faults ");
    shown.add_number(links.faults());
    if !is_last {
        shown.add(b", and more");
    }
    Ok(())
}

// What the calls of a row answer.
pub(crate) fn played(alloc: Global, row: &[u8], shown: &mut Shown) -> Result<(), Failed> {
    let row = Held {
        value: Row::of(alloc, row, b' ')?,
    };
    let mut links = links_of(alloc, &row.value)?;
    let routes = Routes::new(alloc);
    play_over(alloc, &mut links, &routes, &row.value, shown)
}
