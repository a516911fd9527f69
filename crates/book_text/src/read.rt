// A book's text read back: the book, or the first line that is wrong and why.
ghost use Rattle.std.specs.Prelude.{◌≡◌, ◌≤◌, ◌+◌, ◌<◌, ◌^◌, IfOk};
ghost use Rattle.book_hosts.specs.Hosts as of_hosts;
ghost use Rattle.book_preflights.specs.Keys as of_keys;
ghost use Rattle.book_text.specs.Reading as spec;
ghost use Rattle.book_text.specs.Texts.{IsBook, book_text};
ghost use Rattle.book_text.specs.Private.Steps.{Gives, Goes};
ghost use Rattle.book_text.specs.declared.refusal.ReadError.TheVariants.{Refused};

use crate::fields::{after_prefix, count_at};
use crate::laws::law_read_written;
use crate::lines::{entry_at, host_at};
use crate::refusal::{ReadError, Reason, Refusal};
use book_calls::Book;
use book_hosts::HstsList;
use book_preflights::Precache;
use std::alloc::Global;

const HEADING: &[u8] = b"fiorrudda book 1\n";

// The greatest number of hosts, and that of entries: so many fit into no memory.
const MOST_HOSTS: u64 = 4096;

const MOST_ENTRIES: u64 = 9_223_372_036_854_775_807;

// A refusal.
fn refused(line: u64, reason: Reason) -> ReadError
    ensures { result ≡ Refused (spec.refusal line reason) }
{
    ReadError::Refused(Refusal { line, reason })
}

// Adds the host whose line is at the front of a text, and gives what follows it.
fn next_host<'a>(
    alloc: Global,
    hosts: &mut HstsList,
    line: u64,
    text: &'a [u8],
) -> Result<&'a [u8], ReadError>
    ensures { Goes spec.host_at of_hosts.may_stand_last spec.why_no_host line hosts.old hosts.new text.now result }
{
    let Some((known, rest)) = host_at(alloc, text)? else {
        return Err(refused(line, Reason::BadLine));
    };
    if hosts.extend(known)? {
        Ok(rest)
    } else {
        Err(refused(line, Reason::Order))
    }
}

// The hosts of so many lines, and what follows them.
fn hosts_from(alloc: Global, count: u64, text: &[u8]) -> Result<(HstsList, &[u8]), ReadError>
    requires { count ≤ 4096 }
    ensures { Gives (λ x. (x.0, x.1.now)) result (spec.hosts_from count text.now) }
{
    let mut hosts = HstsList::new(alloc);
    let mut rest = text;
    for index in 0..count {
        match next_host(alloc, &mut hosts, 3 + index, rest) {
            Ok(after) => rest = after,
            Err(error) => return Err(error),
        }
    }
    Ok((hosts, rest))
}

// The hosts behind the line that counts them.
fn counted_hosts(alloc: Global, text: &[u8]) -> Result<(u64, HstsList, &[u8]), ReadError>
    ensures read { Gives (λ x. (x.0, (x.1, x.2.now))) result (spec.counted_hosts text.now) }
    ensures few { IfOk result (λ x. x.0 ≤ 4096) }
{
    let Some((count, rest)) = count_at(b"hosts ", MOST_HOSTS, text) else {
        return Err(refused(2, Reason::BadLine));
    };
    match hosts_from(alloc, count, rest) {
        Ok((hosts, rest)) => Ok((count, hosts, rest)),
        Err(error) => Err(error),
    }
}

// Why an entry may not stand last.
fn why_no_entry(cache: &Precache, key: &[u8]) -> Reason
    ensures { result ≡ spec.why_by_key key.now cache.now }
{
    if cache.entries_of(key).len() < 64 {
        Reason::Order
    } else {
        Reason::Full
    }
}

// Adds the entry whose line is at the front of a text, and gives what follows it.
fn next_entry<'a>(
    alloc: Global,
    cache: &mut Precache,
    line: u64,
    text: &'a [u8],
) -> Result<&'a [u8], ReadError>
    ensures { Goes spec.entry_at of_keys.may_stand_last spec.why_no_entry line cache.old cache.new text.now result }
{
    let Some((keyed, rest)) = entry_at(alloc, text)? else {
        return Err(refused(line, Reason::BadLine));
    };
    let reason = why_no_entry(cache, keyed.key.as_slice());
    if cache.extend(keyed)? {
        Ok(rest)
    } else {
        Err(refused(line, reason))
    }
}

// The entries of so many lines from this one on, and what follows them.
fn entries_from(
    alloc: Global,
    line: u64,
    count: u64,
    text: &[u8],
) -> Result<(Precache, &[u8]), ReadError>
    requires { line + count < 2 ^ 64 }
    ensures { Gives (λ x. (x.0, x.1.now)) result (spec.entries_from line count text.now) }
{
    let mut cache = Precache::new(alloc);
    let mut rest = text;
    for index in 0..count {
        match next_entry(alloc, &mut cache, line + index, rest) {
            Ok(after) => rest = after,
            Err(error) => return Err(error),
        }
    }
    Ok((cache, rest))
}

// The entries behind the line that counts them, which is this one.
fn counted_entries(
    alloc: Global,
    line: u64,
    text: &[u8],
) -> Result<(u64, Precache, &[u8]), ReadError>
    requires { line ≤ 8192 }
    ensures read { Gives (λ x. (x.0, (x.1, x.2.now))) result (spec.counted_entries line text.now) }
    ensures few { IfOk result (λ x. x.0 ≤ 9223372036854775807) }
{
    let Some((count, rest)) = count_at(b"entries ", MOST_ENTRIES, text) else {
        return Err(refused(line, Reason::BadLine));
    };
    match entries_from(alloc, line + 1, count, rest) {
        Ok((cache, rest)) => Ok((count, cache, rest)),
        Err(error) => Err(error),
    }
}

// What follows the first line.
fn after_heading(text: &[u8]) -> Result<&[u8], ReadError>
    ensures { Gives (λ rest. rest.now) result (spec.first_line text.now) }
{
    match after_prefix(HEADING, text) {
        Some(rest) => Ok(rest),
        None => match after_prefix(b"fiorrudda book ", text) {
            Some(_) => Err(refused(1, Reason::OtherFormat)),
            None => Err(refused(1, Reason::NoBook)),
        },
    }
}

// The book whose hosts, and then whose entries, a text has.
fn book_after(alloc: Global, text: &[u8]) -> Result<Book, ReadError>
    ensures { Gives (λ book. book) result (spec.book_after text.now) }
{
    let (count, hosts, rest) = match counted_hosts(alloc, text) {
        Ok(read) => read,
        Err(error) => return Err(error),
    };
    let (entries, cache, rest) = match counted_entries(alloc, count + 3, rest) {
        Ok(read) => read,
        Err(error) => return Err(error),
    };
    if rest.is_empty() {
        Ok(Book::of(hosts, cache))
    } else {
        Err(refused(count + entries + 4, Reason::TooLong))
    }
}

/// The book whose text this is. `Refused` exactly where it is that of none, with the first line that is not as a
/// book's text has it, and why: nothing is read of such a text. `Memory` where memory was refused.
pub fn book_of(alloc: Global, text: &[u8]) -> Result<Book, ReadError>
    ensures read { Gives (λ book. book) result (spec.read_book text.now) }
    ensures found { IfOk result (λ book. text.now ≡ book_text book) }
    ensures book { IfOk result (λ book. IsBook book) }
{
    law_read_written();
    match after_heading(text) {
        Ok(rest) => book_after(alloc, rest),
        Err(error) => Err(error),
    }
}
