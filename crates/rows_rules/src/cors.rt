// Rows of the CORS protocol; OPS make a header list, as `rows_shell`'s `list_of` says, and NAMES are unsafe names
// with a space between:
//
//     corp REQUEST OPS                      whether the cross-origin resource policy check blocks
//     preflight REQUEST NAMES               the preflight as it is sent
//     verdict REQUEST NAMES STATUS OPS      the verdict on its answer
ghost use Rattle.std.specs.Prelude.{IsTrue};
ghost use Rattle.value_requests.specs.Requests.{IsAtHttp, IsRequest, is_determined};

use crate::responses::head_of;
use policy_checks::{corp_blocks, serialized_origin};
use policy_preflight::{Checked, preflight_of, verdict};
use rows_shell::{Failed, Held, Row, Shown, list_of, texts_between};
use std::alloc::Global;
use value_bytes::BytesList;
use value_origins::tuple_origin;
use value_requests::{Hop, NetError, Request};

// Whether the row's headers keep an answer from a request.
pub(crate) fn blocked(
    alloc: Global,
    row: &Row,
    request: &Request,
    shown: &mut Shown,
) -> Result<(), Failed>
    requires valid { IsRequest request.now }
    requires at_http { IsAtHttp request.now }
{
    let headers = Held {
        value: list_of(alloc, row, 1)?,
    };
    let url = tuple_origin(alloc, request.current_url())?;
    shown.add_yes_or_no(corp_blocks(&request.origin, &url, &headers.value));
    Ok(())
}

// The names that a text writes.
fn names_in(alloc: Global, text: &[u8]) -> Result<BytesList, Failed> {
    if text.is_empty() {
        return Ok(BytesList::new(alloc));
    }
    texts_between(alloc, text, b' ')
}

// The preflight of a request.
pub(crate) fn preflight(
    alloc: Global,
    row: &Row,
    request: &Request,
    shown: &mut Shown,
) -> Result<(), Failed>
    requires valid { IsRequest request.now }
    requires at_http { IsAtHttp request.now }
    requires determined { IsTrue (is_determined request.now.referrer) }
{
    let names = Held {
        value: names_in(alloc, row.text(1))?,
    };
    let hop = preflight_of(alloc, request, &names.value)?;
    show_hop(&hop, shown);
    Ok(())
}

// The target's origin, the method, the target and the headers of a preflight without a body.
fn show_hop(hop: &Hop, shown: &mut Shown) {
    if !hop.preflight || hop.body.is_some() {
        shown.add(b"DIFFERS");
        return;
    }
    shown.add(hop.origin.as_slice());
    shown.add(b" ");
    shown.add(hop.method.as_slice());
    shown.add(b" ");
    shown.add(hop.url.as_slice());
    shown.add(b" ");
    shown.add_packed(&hop.headers);
}

// The verdict on the row's head, for its request and names.
pub(crate) fn checked(
    alloc: Global,
    row: &Row,
    request: &Request,
    shown: &mut Shown,
) -> Result<(), Failed>
    requires { IsRequest request.now }
{
    let names = Held {
        value: names_in(alloc, row.text(1))?,
    };
    let head = Held {
        value: head_of(alloc, row, 2)?,
    };
    let origin = serialized_origin(alloc, request)?;
    let checked = verdict(alloc, request, origin.as_slice(), &names.value, &head.value)?;
    show_checked(&checked, shown);
    Ok(())
}

// The age of a pass, its methods and its names, or why there is none.
fn show_checked(checked: &Checked, shown: &mut Shown) {
    match checked {
        Checked::Pass {
            age,
            methods,
            names,
        } => {
            shown.add(b"pass ");
            shown.add_number(*age);
            add_list(b" methods", methods, shown);
            add_list(b" names", names, shown);
        }
        Checked::Refused(error) => show_error(error, shown),
    }
}

// A word and, where there are any, the texts with a bar after each.
fn add_list(word: &[u8], texts: &BytesList, shown: &mut Shown) {
    shown.add(word);
    if !texts.is_empty() {
        shown.add(b" ");
    }
    shown.add_texts(texts.as_slice());
}

// The number and the name of a network error, and the header that it names.
fn show_error(error: &NetError, shown: &mut Shown) {
    shown.add(b"refused ");
    shown.add_number(u64::from(error.number()));
    shown.add(b" ");
    shown.add(error.name().as_bytes());
    if let NetError::PreflightHeader(name) = error {
        shown.add(b" ");
        shown.add_escaped(name.as_slice());
    }
}
