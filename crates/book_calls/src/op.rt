// The operations on the book, and what they reply.
ghost use Rattle.std.specs.Prelude.{◌≡◌, ◌↔◌, IsTrue};
ghost use Rattle.book_calls.specs.Ops.{InRange, is_in_range};

use book_hosts::Sts;
use book_preflights::{Lesson, Question};
use value_bytes::Bytes;

/// One operation on the book. The last number of each is its time, in seconds.
#[derive(Drop)]
pub enum Op {
    /// Whether the host is a known HSTS host.
    Match(Bytes, u64),
    /// A Strict-Transport-Security field of the host.
    Note(Bytes, Sts, u64),
    /// Whether the preflight cache covers a request.
    Covers(Question, u64),
    /// What a preflight taught.
    Learn(Lesson, u64),
    /// Takes out the cache entries of a key, an origin and a URL.
    Clear(Bytes, Bytes, Bytes, u64),
}

/// What an operation replies: Yes or No to a question, else Done.
#[derive(Clone, Copy, Debug, PartialEq, Eq)]
pub enum Reply {
    Yes,
    No,
    Done,
}

// The first time, and the first age, that a book does not have.
const LATEST: u64 = 281_474_976_710_656;

impl Op {
    /// Whether the operation is in range: its time and a noted age are below 2^48, and a lesson's age is at most 7,200.
    pub fn is_in_range(&self) -> bool
        ensures value { result ≡ is_in_range self.now }
        ensures range { IsTrue result ↔ InRange self.now }
    {
        match self {
            Op::Match(_, now) | Op::Covers(_, now) | Op::Clear(_, _, _, now) => *now < LATEST,
            Op::Note(_, sts, now) => *now < LATEST && sts.age < LATEST,
            Op::Learn(lesson, now) => *now < LATEST && lesson.age <= 7_200,
        }
    }
}
