// The known hosts of a book.
ghost use Rattle.std.specs.Prelude.{◌≡◌, OnErr, OnOk};
ghost use Rattle.c_rules.specs.Answers.{IsUnlessMemory};
ghost use Rattle.c_rules.specs.Hosts as spec;

use crate::refusal::Refusal;
use book_calls::{Book, Op, Reply};
use book_hosts::parse_sts;
use std::alloc::Global;
use value_bytes::Bytes;
use value_requests::are_host_name;

/// The first time, in seconds, that is too late for a book.
const END_OF_TIME: u64 = 281_474_976_710_656;

// Refuses a host that is never known, and then a time that a book does not have.
fn check_host(alloc: Global, host: &[u8], now: u64) -> Result<(), Refusal>
    ensures { IsUnlessMemory result (spec.checked host.now now) }
{
    if !are_host_name(alloc, host)? {
        return Err(Refusal::NotHost);
    }
    if now >= END_OF_TIME {
        return Err(Refusal::TooLate);
    }
    Ok(())
}

/// Notes what the value of a Strict-Transport-Security field of a host says, at a time in seconds, and tells whether it
/// says something (RFC 6797, section 8.1). The field came over https with no error. `NotHost` of a host that is no
/// domain as a URL has it (section 8.1.1), or a localhost name, which is this project's profile; `TooLate` at 2^48
/// seconds. A refused note leaves the book as it was.
pub fn note_field(
    alloc: Global,
    book: &mut Book,
    host: &[u8],
    field: &[u8],
    now: u64,
) -> Result<bool, Refusal>
    ensures told { IsUnlessMemory result (spec.says host.now field.now now) }
    ensures ok { OnOk result (book.new ≡ spec.after_field host.now field.now now book.old) }
    ensures err { OnErr result (book.new ≡ book.old) }
{
    check_host(alloc, host, now)?;
    let Some(sts) = parse_sts(alloc, field)? else {
        return Ok(false);
    };
    let op = Op::Note(Bytes::of(alloc, host)?, sts, now);
    book.apply(alloc, &op)?;
    Ok(true)
}

/// Whether a host is a known HSTS host at a time in seconds (RFC 6797, section 8.2). `NotHost` and `TooLate` as of
/// `note_field`. The book stays as it was.
pub fn is_known_host(alloc: Global, book: &mut Book, host: &[u8], now: u64) -> Result<bool, Refusal>
    ensures told { IsUnlessMemory result (spec.is_known_host host.now now book.old) }
    ensures kept { book.new ≡ book.old }
{
    check_host(alloc, host, now)?;
    let op = Op::Match(Bytes::of(alloc, host)?, now);
    match book.apply(alloc, &op)? {
        Reply::Yes => Ok(true),
        Reply::No | Reply::Done => Ok(false),
    }
}
