// Rows of requests, as `rows_shell`'s `requests.rt` writes one in their first text:
//
//     origin REQUEST                the serialised origin
//     mixed REQUEST TOP             whether the request, in a page with that URL at the top, is upgraded, and whether
//                                   it is blocked as it is
//
// `checks.rt`, `cors.rt` and `responses.rt` have the other kinds.
ghost use Rattle.std.specs.Prelude.{IsTrue};
ghost use Rattle.value_requests.specs.Requests.{IsAtHttp, IsRequest, is_determined};

use crate::{checks, cors, responses};
use policy_checks::{blocked, serialized_origin, upgrade};
use rows_shell::{Failed, Row, Shown, origin_written, request_of, value_of};
use std::alloc::Global;
use value_requests::Request;

// The answer to a row of a request or of policies, and whether the row is one.
pub(crate) fn answer(
    alloc: Global,
    kind: &str,
    row: &Row,
    shown: &mut Shown,
) -> Result<bool, Failed> {
    if kind == "upgrades" {
        checks::upgrades(alloc, row, shown)?;
        return Ok(true);
    }
    if value_of(row.text(0), b"url").is_empty() {
        return Ok(false);
    }
    made(alloc, kind, row, shown)?;
    Ok(true)
}

// What a row asks of the request that its first text writes.
fn made(alloc: Global, kind: &str, row: &Row, shown: &mut Shown) -> Result<(), Failed> {
    let request = request_of(alloc, row.text(0))?;
    asked(alloc, kind, row, &request, shown)
}

// What a row asks of its request.
fn asked(
    alloc: Global,
    kind: &str,
    row: &Row,
    request: &Request,
    shown: &mut Shown,
) -> Result<(), Failed>
    requires valid { IsRequest request.now }
    requires at_http { IsAtHttp request.now }
    requires determined { IsTrue (is_determined request.now.referrer) }
{
    match kind {
        "origin" => {
            shown.add_text(Some(serialized_origin(alloc, request)?));
            Ok(())
        }
        "mixed" => mixed(alloc, row, request, shown),
        "corp" => cors::blocked(alloc, row, request, shown),
        "preflight" => cors::preflight(alloc, row, request, shown),
        "verdict" => cors::checked(alloc, row, request, shown),
        "reported" => checks::checked(alloc, row, request, false, shown),
        "refused" => checks::checked(alloc, row, request, true, shown),
        "response" => checks::response(alloc, row, request, shown),
        _ => responses::asked(alloc, kind, row, request, shown),
    }
}

// Whether a request is upgraded, and whether it is blocked.
fn mixed(alloc: Global, row: &Row, request: &Request, shown: &mut Shown) -> Result<(), Failed>
    requires { IsRequest request.now }
{
    let top = origin_written(alloc, row.text(1))?;
    let is_upgraded = upgrade(request, &request.origin, &top);
    let is_blocked = blocked(request, &request.origin, &top);
    match (is_upgraded, is_blocked) {
        (true, true) => shown.add(b"upgraded blocked"),
        (true, false) => shown.add(b"upgraded"),
        (false, true) => shown.add(b"blocked"),
        (false, false) => shown.add(b"neither"),
    }
    Ok(())
}
