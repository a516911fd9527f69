// What is read of an answer that comes in pieces, and how it is shown.
use link_http1::{BodyReader, BodyStep, HeadReader, HeadStep};
use rows_shell::{Failed, Held, Shown};
use std::alloc::Global;
use value_requests::{BodyEnd, Head};

/// How many bytes of a whole body are printed, and how many headers of a head.
const SHOWN: usize = 16;

/// What is read of an answer.
#[derive(Clone, Copy)]
pub(crate) enum Part {
    /// Its heads.
    Heads,
    /// Its body, of so many bytes at most.
    Body(u32),
}

/// How far an answer was read.
#[derive(Drop)]
pub(crate) enum Reading {
    Heads(HeadReader),
    Bad,
    TooBig,
    /// The final head, and how many bytes there are up to its end.
    Final(Head, usize),
    Body(BodyReader),
    Over(BodyEnd),
}

impl Reading {
    // Nothing was read yet.
    pub(crate) fn begun(alloc: Global) -> Result<Reading, Failed> {
        Ok(Reading::Heads(HeadReader::new(alloc)?))
    }

    // Goes on with a piece.
    pub(crate) fn feed(self, alloc: Global, part: Part, piece: &[u8]) -> Result<Reading, Failed> {
        match self {
            Reading::Heads(reader) => feed_head(alloc, part, reader, piece),
            Reading::Body(reader) => Ok(feed_body(reader, piece)),
            read => Ok(read),
        }
    }

    // Shows what the part comes to at the end of the answer.
    pub(crate) fn show(self, part: Part, shown: &mut Shown) {
        match self {
            Reading::Body(reader) => show_end(reader.finish(), shown),
            Reading::Over(end) => show_end(end, shown),
            _ if matches!(part, Part::Body(_)) => shown.add(b"no head"),
            Reading::Heads(reader) => {
                shown.add_count(b"open after ", reader.seen_bytes() as usize);
            }
            Reading::Final(head, end) => show_head(&head, end, shown),
            Reading::Bad => shown.add(b"bad"),
            Reading::TooBig => shown.add(b"too big"),
        }
    }
}

// The heads go on with a piece.
fn feed_head(
    alloc: Global,
    part: Part,
    reader: HeadReader,
    piece: &[u8],
) -> Result<Reading, Failed> {
    let before = reader.seen_bytes() as usize;
    Ok(match reader.feed(alloc, piece)? {
        HeadStep::More(next) => Reading::Heads(next),
        HeadStep::Bad => Reading::Bad,
        HeadStep::TooBig => Reading::TooBig,
        HeadStep::Final(head, count) => match part {
            Part::Heads => Reading::Final(head, before.saturating_add(count)),
            Part::Body(limit) => {
                let behind = piece.split_at(count.min(piece.len())).1;
                begin_body(alloc, head, limit, behind)?
            }
        },
    })
}

// A body begins after its head, with a piece.
fn begin_body(alloc: Global, head: Head, limit: u32, behind: &[u8]) -> Result<Reading, Failed> {
    let head = Held { value: head };
    let reader = BodyReader::new(alloc, &head.value, limit)?;
    Ok(feed_body(reader, behind))
}

// A body goes on with a piece.
fn feed_body(reader: BodyReader, piece: &[u8]) -> Reading {
    match reader.feed(piece) {
        BodyStep::More(next) => Reading::Body(next),
        BodyStep::Over(end) => Reading::Over(end),
    }
}

// A final head: its status, where it ends, and its headers.
fn show_head(head: &Head, end: usize, shown: &mut Shown) {
    shown.add_count(b"final ", head.status as usize);
    shown.add_count(b" after ", end);
    if head.headers.len() > SHOWN {
        shown.add_count(b", headers: ", head.headers.len());
        return;
    }
    for header in head.headers.as_slice() {
        shown.add(b", ");
        shown.add(header.name());
        shown.add(b": ");
        shown.add(header.value());
    }
}

// How a body came to its end.
fn show_end(end: BodyEnd, shown: &mut Shown) {
    match end {
        BodyEnd::Null => shown.add(b"null"),
        BodyEnd::Whole(bytes) => match bytes.fitted(shown.alloc()) {
            Ok(bytes) => show_whole(bytes.as_slice(), shown),
            Err(_) => shown.fail(),
        },
        BodyEnd::Cut(count) => shown.add_count(b"cut ", count as usize),
        BodyEnd::Fault(count) => shown.add_count(b"fault ", count as usize),
        BodyEnd::TooBig => shown.add(b"too big"),
    }
}

// A whole body: how many bytes it has, and what they are where they are few.
fn show_whole(bytes: &[u8], shown: &mut Shown) {
    shown.add_count(b"whole ", bytes.len());
    if !bytes.is_empty() && bytes.len() <= SHOWN {
        shown.add(b": ");
        shown.add(bytes);
    }
}
