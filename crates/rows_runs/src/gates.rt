// Documents that are played, by the program's top call with the word `net`, over links that wait for each other. Shown
// are the status, the documents' text, and how many calls the history has, since their order is free.
//
// First each link gives its answer only once all documents have sent their requests. So the bodies come whole only
// where the documents run at once, and no turn on the shared book is held during an exchange. Two documents wait for
// each other so, and then five.
//
// Then the second link waits until the first document has sent its PUT, which its preflight has taught the book
// before. So the second document's PUT is covered, and has no preflight of its own, only where they share the book.
// These links are made only where the scenario's routes reach what makes them.
use crate::runs;
use rows_fetches::TWO_DOCUMENTS;
use rows_links::{Asked, Manner, Streams, WaitingLinks, show_count, waiting_for, words_of};
use rows_shell::{Failed, Shown, texts_between};
use std::alloc::Global;
use std::sync::Wait;
use std::thread::Threads;

/// Five documents, each of which fetches the same page.
const CROWD: &[u8] = b"{\"format\":1,\"documents\":[\
    {\"url\":\"https://a.test/\",\"script\":[{\"fetch\":{\"url\":\"https://e.test/\"}}]},\
    {\"url\":\"https://b.test/\",\"script\":[{\"fetch\":{\"url\":\"https://e.test/\"}}]},\
    {\"url\":\"https://c.test/\",\"script\":[{\"fetch\":{\"url\":\"https://e.test/\"}}]},\
    {\"url\":\"https://d.test/\",\"script\":[{\"fetch\":{\"url\":\"https://e.test/\"}}]},\
    {\"url\":\"https://f.test/\",\"script\":[{\"fetch\":{\"url\":\"https://e.test/\"}}]}]}";

/// Two documents with one key. Each sends the same PUT, the second after a GET.
const LESSON: &[u8] =
    b"{\"format\":1,\"routes\":[[\"http://b.test\",\"127.0.0.1:8080\"]],\"documents\":[\
    {\"url\":\"http://a.test/\",\"script\":[{\"fetch\":{\"url\":\"http://b.test/x\",\"method\":\"PUT\"}}]},\
    {\"url\":\"http://a.test/\",\"script\":[{\"fetch\":{\"url\":\"http://b.test/\"}},\
    {\"fetch\":{\"url\":\"http://b.test/x\",\"method\":\"PUT\"}}]}]}";

/// The second document waits for the first one's PUT.
const TAUGHT: Manner = Manner {
    method: b"PUT ",
    first: 0,
    others: 1,
    address: b"127.0.0.1:8080",
};

// Plays the documents of a scenario over links.
fn play_over<R: Threads + Wait + Sync>(
    rt: &R,
    alloc: Global,
    scenario: &[u8],
    manner: Manner,
    shown: &mut Shown,
) -> Result<(), Failed> {
    let words = words_of(alloc, b"net")?;
    let mut streams = Streams::of(alloc, b"", scenario)?;
    let asked = Asked::none();
    let mut links = WaitingLinks::new(&asked, manner);
    runs::play(
        rt,
        alloc,
        words.as_slice(),
        &mut streams,
        &mut links,
        0,
        shown,
    );
    let lines = texts_between(alloc, streams.output(), b'\n')?;
    show_count(lines.as_slice(), b"calls ", shown);
    Ok(())
}

/// Plays all of them.
pub fn play_gates<R: Threads + Wait + Sync + AllocGlobal>(
    rt: &R,
    shown: &mut Shown,
) -> Result<(), Failed> {
    let alloc = rt.alloc();
    play_over(rt, alloc, TWO_DOCUMENTS, waiting_for(2), shown)?;
    shown.add(b"\n");
    play_over(rt, alloc, CROWD, waiting_for(5), shown)?;
    shown.add(b"\n");
    play_over(rt, alloc, LESSON, TAUGHT, shown)
}
