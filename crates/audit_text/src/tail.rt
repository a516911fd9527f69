// The end of a line of a printed history: when the operation was done, and what it replied.
ghost use Rattle.std.specs.Prelude.{◌≡◌, map};
ghost use Rattle.audit_text.specs.Private.Reading as spec;

use book_calls::Reply;
use value_decimal::number_up_to;
use value_text::before_byte;

// Times are below 2^48.
const LATEST: u64 = 281_474_976_710_655;

// The end of a line: when an operation was done, and what it replied.
#[derive(Clone, Copy)]
pub(crate) struct Tail {
    pub(crate) now: u64,
    pub(crate) reply: Reply,
}

// A time, with the colon after it.
fn time_in(word: &[u8]) -> Option<u64>
    ensures { result ≡ spec.time_in word.now }
{
    let number = before_byte(word, b':');
    if word.len() - number.len() == 1 {
        number_up_to(LATEST, number)
    } else {
        None
    }
}

// What an operation replied.
fn reply_in(word: &[u8]) -> Option<Reply>
    ensures { result ≡ spec.reply_in word.now }
{
    if word == b"yes".as_slice() {
        Some(Reply::Yes)
    } else if word == b"no".as_slice() {
        Some(Reply::No)
    } else if word == b"done".as_slice() {
        Some(Reply::Done)
    } else {
        None
    }
}

// `at`, the time and the reply.
pub(crate) fn tail_in(words: &[&[u8]]) -> Option<Tail>
    ensures { result ≡ spec.tail_in (map (λ word. word.now) words.now) }
{
    let [at, now, reply] = words else {
        return None;
    };
    if *at != b"at".as_slice() {
        return None;
    }
    let now = time_in(now)?;
    let reply = reply_in(reply)?;
    Some(Tail { now, reply })
}
