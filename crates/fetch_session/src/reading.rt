// What reads the bytes that come, of a head or a body, and how that body is framed.
ghost use Rattle.std.specs.Prelude.{◌≡◌, IfOk};
ghost use Rattle.fetch_session.specs.Readers.{bodies_after, reader_for};

use fetch_acts::{Act, Input};
use link_http1::{BodyReader, Framing, HeadReader, framing_of};
use std::alloc::Global;
use value_bytes::OutOfMemory;
use value_requests::BodyEnd;

/// How the body behind the last head is framed, and how many bytes a body may have.
#[derive(Clone, Copy, Debug, PartialEq, Eq)]
pub struct Bodies {
    pub framing: Framing,
    pub limit: u32,
}

impl Bodies {
    // The same once an input came: behind a head the body is framed as that tells.
    pub(crate) fn after(self, alloc: Global, input: &Input) -> Result<Bodies, OutOfMemory>
        ensures { IfOk result (λ bodies. bodies ≡ bodies_after self input.now) }
    {
        match input {
            Input::HeadIs(head) => Ok(Bodies {
                framing: framing_of(alloc, head)?,
                limit: self.limit,
            }),
            _ => Ok(self),
        }
    }
}

/// What reads the bytes that come.
#[derive(Drop)]
pub enum Reader {
    /// No bytes are awaited.
    Idle,
    /// A head is read.
    Head(HeadReader),
    /// A body is read.
    Body(BodyReader),
}

// The reader of what an act awaits.
pub(crate) fn reader_for(alloc: Global, act: &Act, bodies: Bodies) -> Result<Reader, OutOfMemory>
    ensures { IfOk result (λ reader. reader ≡ reader_for act.now bodies) }
{
    match act {
        Act::ReadHead => Ok(Reader::Head(HeadReader::new(alloc)?)),
        Act::ReadBody => Ok(Reader::Body(BodyReader::framed(alloc, bodies.framing, bodies.limit)?)),
        Act::Ask(_) | Act::Send(_) | Act::Tell(_) => Ok(Reader::Idle),
    }
}

// The same end of a body, which holds no more room than it needs.
pub(crate) fn fitted(alloc: Global, end: BodyEnd) -> Result<BodyEnd, OutOfMemory>
    ensures { IfOk result (λ fitted. fitted ≡ end) }
{
    match end {
        BodyEnd::Whole(bytes) => Ok(BodyEnd::Whole(bytes.fitted(alloc)?)),
        other => Ok(other),
    }
}
