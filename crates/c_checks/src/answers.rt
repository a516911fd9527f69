// What a page sees of an answer.
ghost use Rattle.std.specs.Prelude.{◌≡◌, IfOk};
ghost use Rattle.c_checks.specs.Answers as spec;
ghost use Rattle.c_rules.specs.Answers.{IsUnlessMemory};
ghost use Rattle.policy_filter.specs.Blocks as blocks;
ghost use Rattle.value_headers.specs.Spelling.{HaveOneSpelling};

use crate::requested::request_of;
use c_fetch::{Asked, Settings};
use c_rules::Refusal;
use fetch_answers::is_manual;
use fetch_rules::set_tainting;
use policy_filter::filtered;
use std::alloc::Global;
use value_headers::HeaderList;
use value_lists::{essence_of, mime_blocked, nosniff, nosniff_blocked};
use value_requests::{Destination, Head, Response, Tainting, slice_of};

/// The filtered response of a status and a header list that answer a client's request with this response tainting
/// (Fetch, section 2.2.6): basic, CORS or opaque; of a redirect in redirect mode manual opaque-redirect. Its body is
/// null. `NoRequest`.
pub fn seen_response(
    alloc: Global,
    settings: &Settings,
    asked: &Asked,
    tainting: Tainting,
    status: u16,
    list: &HeaderList,
) -> Result<Response, Refusal>
    ensures value { IsUnlessMemory result (spec.seen_response settings.now asked.now tainting
        (record { status = status; headers = list.now })) }
    ensures spelled { IfOk result (λ response. HaveOneSpelling response.headers) }
{
    let mut request = request_of(alloc, settings, asked)?;
    set_tainting(&mut request, tainting);
    let head = Head {
        status,
        headers: list.copy(alloc)?,
    };
    let manual = is_manual(&request, &head);
    Ok(filtered(alloc, &request, head, manual)?)
}

// Whether the destination is script.
fn is_script(destination: Destination) -> bool
    ensures { result ≡ blocks.is_script destination }
{
    matches!(destination, Destination::Script)
}

// Whether the destination is style.
fn is_style(destination: Destination) -> bool
    ensures { result ≡ blocks.is_style destination }
{
    matches!(destination, Destination::Style)
}

/// Whether an answer with this header list to a request is blocked for its MIME type (Fetch, "should response to
/// request be blocked due to its MIME type").
pub fn is_type_blocked(alloc: Global, asked: &Asked, list: &HeaderList) -> Result<bool, Refusal>
    ensures { IsUnlessMemory result (spec.is_type_blocked asked.now list.now) }
{
    let essence = essence_of(alloc, list)?;
    let script = is_script(asked.destination());
    Ok(mime_blocked(slice_of(&essence), script))
}

/// Whether an answer with this header list to a request is blocked since it says nosniff (Fetch, "should response to
/// request be blocked due to nosniff").
pub fn is_nosniff_blocked(alloc: Global, asked: &Asked, list: &HeaderList) -> Result<bool, Refusal>
    ensures { IsUnlessMemory result (spec.is_nosniff_blocked asked.now list.now) }
{
    if !nosniff(list) {
        return Ok(false);
    }
    let essence = essence_of(alloc, list)?;
    let destination = asked.destination();
    Ok(nosniff_blocked(
        slice_of(&essence),
        is_script(destination),
        is_style(destination),
    ))
}
