// The book, and the hosts that it knows.
ghost use Rattle.std.specs.Prelude.{◌≡◌, ◌≢◌, Some};
ghost use Rattle.c_calls.specs.Calls.{done, known_host, note_host};
ghost use Rattle.c_calls.specs.Sts.{IsSts};
ghost use Rattle.book_calls.specs.Book.{empty};

use book_calls::Book;
use book_hosts::parse_sts;
use c_handle::{Handle, NO, OK, OUT_OF_MEMORY, Thing, WRONG_HANDLE, code_of, told, yes_or_no};
use c_rules::{is_known_host, note_field};
use std::alloc::Global;

/// Makes an empty book in a handle: no known HSTS hosts (RFC 6797, section 8), and an empty CORS-preflight cache
/// (Fetch, section 4.9). What the handle held is freed. Threads that share a book hold one common lock around each call
/// that takes it, this one too.
///
/// `OK` or `OUT_OF_MEMORY`. Except for `OK` the handle holds what it held.
#[unsafe(no_mangle)]
pub extern "C" fn fiorrudda_book(alloc: Global, book: &mut Handle) -> u32
    ensures ok { result ≡ OK → book.new.held ≡ Some (Thing.Book empty) }
    ensures out_of_memory { result ≢ OK → (result ≡ OUT_OF_MEMORY) × (book.new.held ≡ book.old.held) }
{
    book.fill(alloc, Thing::Book(Book::new(alloc)))
}

/// Has a book note what the value of a Strict-Transport-Security field of a host says (RFC 6797, section 8.1), at a
/// time in seconds since any fixed moment. The host is the domain of a URL, in lower case. The field came over https.
/// Threads that share the book hold one common lock around each call that takes it.
///
/// `OK` where the field says something; `NO` where it is to be ignored; `WRONG_HANDLE`; `NOT_A_HOST` of an IP address,
/// a localhost name, a capital letter, or what is no domain; `TOO_LATE`; `OUT_OF_MEMORY`. The book is as it was but for
/// `OK`.
#[unsafe(no_mangle)]
pub extern "C" fn fiorrudda_note_host(
    alloc: Global,
    book: &mut Handle,
    host: &[u8],
    field: &[u8],
    now: u64,
) -> u32
    ensures told { result ≢ OUT_OF_MEMORY → done result book.new.held ≡ note_host host.now field.now now book.old.held }
    ensures out_of_memory { result ≡ OUT_OF_MEMORY → book.new.held ≡ book.old.held }
{
    let Some(book) = book.book() else {
        return WRONG_HANDLE;
    };
    match note_field(alloc, book, host, field, now) {
        Ok(says) => yes_or_no(says),
        Err(refusal) => code_of(refusal),
    }
}

/// Whether a host is a known HSTS host of a book at a time in seconds (RFC 6797, section 8.2): http URLs of it are to
/// be asked by https. The host is the domain of a URL, in lower case. Threads that share the book hold one common lock
/// around each call that takes it.
///
/// `OK` where it is; `NO`, which leaves an http URL as it is; `NOT_A_HOST`, which does so of a host as
/// `fiorrudda_origin` writes it, and is told as by `fiorrudda_note_host`: also of a host with a capital letter;
/// `WRONG_HANDLE`; `TOO_LATE`; `OUT_OF_MEMORY`.
#[unsafe(no_mangle)]
pub extern "C" fn fiorrudda_known_host(
    alloc: Global,
    book: &mut Handle,
    host: &[u8],
    now: u64,
) -> u32
    ensures told { result ≢ OUT_OF_MEMORY → result ≡ known_host host.now now book.old.held }
    ensures held { book.new.held ≡ book.old.held }
{
    let Some(book) = book.book() else {
        return WRONG_HANDLE;
    };
    told(is_known_host(alloc, book, host, now))
}

/// What the value of a Strict-Transport-Security field says (RFC 6797, section 6.1): for how many seconds the host is
/// known, at most 4,294,967,295, and whether the names under it are too, 1 or 0.
///
/// `OK`; `NO` where the field is to be ignored; `OUT_OF_MEMORY`. But for `OK` nothing is written.
#[unsafe(no_mangle)]
pub extern "C" fn fiorrudda_sts(
    alloc: Global,
    field: &[u8],
    age: &mut u64,
    subdomains: &mut u32,
) -> u32
    ensures told { result ≢ OUT_OF_MEMORY → IsSts field.now age.old age.new subdomains.old subdomains.new result }
    ensures out_of_memory { result ≡ OUT_OF_MEMORY → (age.new ≡ age.old) × (subdomains.new ≡ subdomains.old) }
{
    match parse_sts(alloc, field) {
        Ok(Some(sts)) => {
            *age = sts.age;
            *subdomains = if sts.subdomains { 1 } else { 0 };
            OK
        }
        Ok(None) => NO,
        Err(_) => OUT_OF_MEMORY,
    }
}
