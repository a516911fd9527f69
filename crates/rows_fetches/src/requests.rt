// A request that is fetched by itself over a link and a book of its own. A row has, with a tab between, the request, as
// `requests.rt` of `rows_shell` writes one, and its link, as `links.rt` of `rows_links` does. The words for what fails
// may include
//
//     limit=N           the fetch reads so many bytes of a body at most, and not 262,144
ghost use Rattle.std.specs.Prelude.{◌≤◌};
ghost use Rattle.value_requests.specs.Requests.{IsClient, IsRequest};

use crate::documents::{history_of, show};
use book_calls::{Book, History, Share, SoloBook};
use link_traits::MemoryLink;
use play_definitions::FetchRun;
use play_fetch::drive_fetch;
use policy_csp::Compiled;
use policy_csp_text::Policies;
use rows_links::{link_in, show_link};
use rows_shell::{Failed, Held, Shown, client_at, number, request_of, value_of};
use script_events::{Ending, Event, Transcript, Transcripts};
use std::alloc::Global;
use value_bytes::Bytes;
use value_requests::{Client, Cookies, Request};
use value_text::{after_byte, before_byte};

/// How many bytes of a body are read at most, where no word says it.
pub(crate) const LIMIT: u32 = 262_144;

// How many bytes of a body are read at most.
fn limit_of(words: &[u8]) -> Result<u32, Failed> {
    match value_of(words, b"limit") {
        [] => Ok(LIMIT),
        digits => Ok(number(digits, u64::from(LIMIT))?.min(u64::from(LIMIT)) as u32),
    }
}

// Fetches a request for a client, which has no policies and no cookies, over a share of a book.
fn fetch_by<S: Share>(
    alloc: Global,
    request: Request,
    limit: u32,
    client: &Client,
    share: &S,
    pass: &mut S::Pass,
    link: &mut MemoryLink,
) -> Result<FetchRun, Failed>
    requires request { IsRequest request }
    requires client { IsClient client.now }
    requires belongs { S.belongs share.now pass.old }
    requires left { 126 ≤ (S.account pass.old).left }
{
    let policies = Held {
        value: Compiled::of(alloc, &Policies::new(alloc))?,
    };
    let cookies = Cookies::new(alloc);
    Ok(drive_fetch(
        alloc,
        request,
        client,
        &policies.value,
        &cookies,
        0,
        limit,
        share,
        pass,
        link,
    )?)
}

// The same over a book of its own, with the history.
pub(crate) fn fetch(
    alloc: Global,
    request: Request,
    limit: u32,
    client: &Client,
    link: &mut MemoryLink,
) -> Result<(FetchRun, History), Failed>
    requires request { IsRequest request }
    requires client { IsClient client.now }
{
    let (share, mut pass) = SoloBook::new(alloc, Book::new(alloc));
    let run = fetch_by(alloc, request, limit, client, &share, &mut pass, link);
    let history = history_of(share, pass);
    Ok((run?, history))
}

// What a fetch showed and came to, as a document of which it is all.
fn transcripts_of(alloc: Global, key: Bytes, run: FetchRun) -> Result<Transcripts, Failed> {
    let FetchRun {
        mut events,
        outcome,
    } = run;
    events.push(Event::Result(outcome))?;
    let mut transcripts = Transcripts::new(alloc);
    transcripts.push(Transcript {
        document: 0,
        key,
        events,
        ending: Ending::Finished,
        clock: 0,
    })?;
    Ok(transcripts)
}

// Fetches the request of a row for a client over its link, and shows its text, with the history.
fn play_for(
    alloc: Global,
    line: &[u8],
    client: &Client,
    link: &mut MemoryLink,
    shown: &mut Shown,
) -> Result<(), Failed>
    requires { IsClient client.now }
{
    let limit = limit_of(before_byte(after_byte(line, b'\t'), b'\t'))?;
    let key = client.key.copy(alloc)?;
    let request = request_of(alloc, before_byte(line, b'\t'))?;
    let (run, history) = fetch(alloc, Box::into_inner(request), limit, client, link)?;
    show_link(link, shown);
    let transcripts = transcripts_of(alloc, key, run)?;
    show(alloc, &transcripts, &history, shown)
}

/// Fetches the request of a row over its link and a book of its own, and shows how often the link was asked and failed,
/// and the text of the fetch.
pub fn play_request<R: AllocGlobal>(rt: &R, line: &str, shown: &mut Shown) -> Result<(), Failed> {
    let alloc = rt.alloc();
    let mut link = Held {
        value: link_in(alloc, line)?,
    };
    let client = Held {
        value: client_at(
            alloc,
            value_of(before_byte(line.as_bytes(), b'\t'), b"from"),
        )?,
    };
    play_for(
        alloc,
        line.as_bytes(),
        &client.value,
        &mut link.value,
        shown,
    )
}
