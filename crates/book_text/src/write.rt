// A book written as a text: its known hosts, then the entries of its preflight cache.
ghost use Rattle.std.specs.Prelude.{◌≡◌, ◌≤◌, ◌++◌, length, IfOk, OnOk, Ok};
ghost use Rattle.std.specs.List.{AllByRecursion, flat_map};
ghost use Rattle.book_text.specs.Reading.{read_book};
ghost use Rattle.book_text.specs.Texts.{FitsEntry, FitsHost, IsBook, book_text, count_line, entry_line};
ghost use Rattle.book_text.specs.Texts.{entry_numbers, flag, greatest, host_line, is_name, item, number_field};
ghost use Rattle.book_text.specs.Texts.{text_field};

use crate::laws::law_read_written;
use book_calls::Book;
use book_hosts::KnownHost;
use book_preflights::{Allowed, Keyed};
use itoa::Buffer;
use std::alloc::Global;
use value_bytes::{Bytes, OutOfMemory};

const HEADING: &[u8] = b"fiorrudda book 1\n";

// Adds a number and the byte after it.
fn add_number(text: &mut Bytes, stop: u8, number: u64) -> Result<(), OutOfMemory>
    ensures { OnOk result (text.new ≡ text.old ++ number_field stop number) }
{
    let mut buffer = Buffer::new();
    text.append(buffer.format(number).as_bytes())?;
    text.append([stop].as_slice())
}

// Adds a text behind its length, and the byte after it.
fn add_text(text: &mut Bytes, stop: u8, field: &[u8]) -> Result<(), OutOfMemory>
    ensures ok { OnOk result (text.new ≡ text.old ++ text_field stop field.now) }
    ensures fits { length field.now ≤ greatest }
{
    add_number(text, b':', field.len() as u64)?;
    text.append(field)?;
    text.append([stop].as_slice())
}

fn flag(yes: bool) -> u64
    ensures { result ≡ flag yes }
{
    if yes { 1 } else { 0 }
}

// Adds the line of a host.
fn add_host(text: &mut Bytes, known: &KnownHost) -> Result<(), OutOfMemory>
    ensures ok { OnOk result (text.new ≡ text.old ++ host_line known.now) }
    ensures fits { OnOk result (FitsHost known.now) }
{
    add_number(text, b' ', known.until)?;
    add_number(text, b' ', flag(known.subdomains))?;
    add_text(text, b'\n', known.host.as_slice())
}

fn is_name(allowed: &Allowed) -> bool
    ensures { result ≡ is_name allowed.now }
{
    match allowed {
        Allowed::Method(_) => false,
        Allowed::HeaderName(_) => true,
    }
}

fn item(allowed: &Allowed) -> &[u8]
    ensures { result.now ≡ item allowed.now }
{
    match allowed {
        Allowed::Method(method) => method.as_slice(),
        Allowed::HeaderName(name) => name.as_slice(),
    }
}

// Adds the numbers of an entry.
fn add_numbers(text: &mut Bytes, keyed: &Keyed) -> Result<(), OutOfMemory>
    ensures ok { OnOk result (text.new ≡ text.old ++ entry_numbers keyed.now) }
    ensures fits { OnOk result ((keyed.now.entry.made ≤ greatest) × (keyed.now.entry.age ≤ greatest)) }
{
    add_number(text, b' ', keyed.entry.made)?;
    add_number(text, b' ', keyed.entry.age)?;
    add_number(text, b' ', flag(keyed.entry.include))?;
    add_number(text, b' ', flag(is_name(&keyed.entry.allowed)))
}

// Adds the line of an entry.
fn add_entry(text: &mut Bytes, keyed: &Keyed) -> Result<(), OutOfMemory>
    ensures ok { OnOk result (text.new ≡ text.old ++ entry_line keyed.now) }
    ensures fits { OnOk result (FitsEntry keyed.now) }
{
    add_numbers(text, keyed)?;
    add_text(text, b' ', keyed.key.as_slice())?;
    add_text(text, b' ', keyed.entry.origin.as_slice())?;
    add_text(text, b' ', keyed.entry.url.as_slice())?;
    add_text(text, b'\n', item(&keyed.entry.allowed))
}

// Adds the line that counts what follows.
fn add_count(text: &mut Bytes, label: &[u8], count: usize) -> Result<(), OutOfMemory>
    ensures { OnOk result (text.new ≡ text.old ++ count_line label.now count) }
{
    text.append(label)?;
    add_number(text, b'\n', count as u64)
}

// Adds the lines of hosts.
fn add_hosts(text: &mut Bytes, hosts: &[KnownHost]) -> Result<(), OutOfMemory>
    ensures ok { OnOk result (text.new ≡ text.old ++ flat_map host_line hosts.now) }
    ensures fits { OnOk result (AllByRecursion FitsHost hosts.now) }
{
    for known in hosts {
        add_host(text, known)?;
    }
    Ok(())
}

// Adds the lines of entries.
fn add_entries(text: &mut Bytes, entries: &[Keyed]) -> Result<(), OutOfMemory>
    ensures ok { OnOk result (text.new ≡ text.old ++ flat_map entry_line entries.now) }
    ensures fits { OnOk result (AllByRecursion FitsEntry entries.now) }
    ensures count { length entries.now ≤ 9223372036854775807 }
{
    for keyed in entries {
        add_entry(text, keyed)?;
    }
    Ok(())
}

// The lines of a book, one behind the other.
fn lines_of(alloc: Global, book: &Book) -> Result<Bytes, OutOfMemory>
    ensures written { IfOk result (λ text. text ≡ book_text book.now) }
    ensures book { OnOk result (IsBook book.now) }
{
    let hosts = book.hosts().copies(alloc)?;
    let entries = book.cache().copies(alloc)?;
    let mut text = Bytes::of(alloc, HEADING)?;
    add_count(&mut text, b"hosts ", hosts.len())?;
    add_hosts(&mut text, hosts.as_slice())?;
    add_count(&mut text, b"entries ", entries.len())?;
    add_entries(&mut text, entries.as_slice())?;
    Ok(text)
}

/// The text of a book: a line with its name and the number of its format, the known hosts behind the line that counts
/// them, and the entries of the preflight cache behind theirs. It is read back as this book.
pub fn text_of(alloc: Global, book: &Book) -> Result<Bytes, OutOfMemory>
    ensures written { IfOk result (λ text. text ≡ book_text book.now) }
    ensures book { OnOk result (IsBook book.now) }
    ensures read { IfOk result (λ text. read_book text ≡ Ok book.now) }
{
    let text = lines_of(alloc, book)?;
    law_read_written();
    Ok(text)
}
