// The book that a play opens with.
ghost use Rattle.std.specs.Prelude.{◌≡◌, IfOk, OnOk};
ghost use Rattle.std.specs.List.{All};
ghost use Rattle.book_calls.specs.Book.{after, empty};
ghost use Rattle.book_calls.specs.declared.op.Op.TheVariants.{Note};
ghost use Rattle.script_scenarios.specs.Valid.{IsValidHost};
ghost use Rattle.play_definitions.specs.Plays.{with_hosts};

use book_calls::{Book, Op};
use book_hosts::Sts;
use script_scenarios::KnownHost;
use std::alloc::Global;
use value_bytes::OutOfMemory;

// Notes a host at the time 0.
fn note_host(alloc: Global, book: &mut Book, known: &KnownHost) -> Result<(), OutOfMemory>
    requires { IsValidHost known.now }
    ensures { OnOk result (book.new ≡ after book.old (Note known.now.host
        (record { age = known.now.until; subdomains = known.now.subdomains }) 0)) }
{
    let sts = Sts {
        age: known.until,
        subdomains: known.subdomains,
    };
    let host = known.host.copy(alloc)?;
    let applied = book.apply(alloc, &Op::Note(host, sts, 0));
    applied?;
    Ok(())
}

/// The book that a play opens with: an empty one in which these hosts were noted at the time 0, one after another. They
/// are hosts of a valid scenario.
pub fn opened(alloc: Global, hosts: &[KnownHost]) -> Result<Book, OutOfMemory>
    requires { All IsValidHost hosts.now }
    ensures { IfOk result (λ book. book ≡ with_hosts hosts.now empty) }
{
    let mut book = Book::new(alloc);
    for known in hosts {
        note_host(alloc, &mut book, known)?;
    }
    Ok(book)
}
