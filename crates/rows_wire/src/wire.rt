// Rows of the wire:
//
//     head TEXT            what the heads of this answer come to
//     body LIMIT TEXT      how the body of this answer comes to its end, of so many bytes at most
//     request METHOD TARGET BODY NAME: VALUE|NAME: VALUE      the bytes of this request, with no body for `-`
//     link ROOM ASK RECEIVE ANSWERS CALLS      what calls of a link in memory answer: `link.rt`
//     device               what calls of a failing device answer: `device.rt`
//
// Each is printed with what it comes to. An answer is read whole, in pieces of one byte, and in pieces of 4,096 bytes.
// One of at most 1,024 bytes is also cut in two at each place; a longer one is not. Where what an answer comes to
// differs, the row comes to `DIFFERS`. `rows_shell`'s `row.rt` says how a text is written.
use crate::{answer, device, link, request};
use rows_shell::{Failed, Shown, named};
use std::alloc::Global;
use value_text::{after_byte, before_byte};

/// The kinds of rows.
#[derive(Clone, Copy)]
enum Kind {
    Head,
    Body,
    Request,
    Link,
    Device,
}

/// Their names.
const KINDS: [(&[u8], Kind); 5] = [
    (b"head", Kind::Head),
    (b"body", Kind::Body),
    (b"request", Kind::Request),
    (b"link", Kind::Link),
    (b"device", Kind::Device),
];

/// Shows a row of the wire, as this file says how it is written, and what it comes to. It fails where the row is badly
/// written or memory is refused.
pub fn show_row(alloc: Global, row: &[u8], shown: &mut Shown) -> Result<(), Failed> {
    let kind = named(&KINDS, before_byte(row, b' '))?;
    shown.add(row);
    shown.add(b" => ");
    play_row(alloc, kind, after_byte(row, b' '), shown)
}

// What a row of this kind comes to.
fn play_row(alloc: Global, kind: Kind, rest: &[u8], shown: &mut Shown) -> Result<(), Failed> {
    match kind {
        Kind::Head => answer::head(alloc, rest, shown),
        Kind::Body => answer::body(alloc, rest, shown),
        Kind::Request => request::written(alloc, rest, shown),
        Kind::Link => link::played(alloc, rest, shown),
        Kind::Device => {
            device::called(shown);
            Ok(())
        }
    }
}
