// The preflight of a request, and the verdict on its answer.
ghost use Rattle.std.specs.Prelude.{◌≡◌, IfOk};
ghost use Rattle.c_checks.specs.Preflights as spec;
ghost use Rattle.c_rules.specs.Answers.{IsUnlessMemory};
ghost use Rattle.fetch_rules.specs.Referrers.{with_referrer};
ghost use Rattle.fetch_rules.specs.Switch.{switch_of as switched};
ghost use Rattle.value_requests.specs.Requests.{IsAtHttp, IsClient, IsRequest};

use crate::requested::request_of;
use c_fetch::{Asked, Settings};
use c_rules::Refusal;
use fetch_rules::{Switch, is_at_http, set_referrer, switch_of};
use link_http1::write_request;
use policy_checks::serialized_origin;
use policy_preflight::{Checked, preflight_of, verdict};
use policy_safelist::unsafe_names;
use std::alloc::Global;
use value_bytes::{Bytes, OutOfMemory};
use value_headers::HeaderList;
use value_requests::{Client, Head, Hop, NetError, Request};

// The preflight of a request of a client at an http or https URL.
fn preflight_to(
    alloc: Global,
    client: &Client,
    mut request: Request,
) -> Result<Option<Hop>, OutOfMemory>
    requires request { IsRequest request }
    requires http { IsAtHttp request }
    requires client { IsClient client.now }
    ensures { IfOk result (λ hop. hop
        ≡ spec.preflight_where (switched request) (with_referrer client.now request)) }
{
    let Switch::Preflights = switch_of(alloc, &request)? else {
        return Ok(None);
    };
    set_referrer(alloc, &mut request, client)?;
    let names = unsafe_names(alloc, &request.headers)?;
    Ok(Some(preflight_of(alloc, &request, &names)?))
}

// The CORS-preflight request of a client's request.
fn preflight(alloc: Global, settings: &Settings, asked: &Asked) -> Result<Option<Hop>, Refusal>
    ensures { IsUnlessMemory result (spec.preflight settings.now asked.now) }
{
    let request = request_of(alloc, settings, asked)?;
    if !is_at_http(&request) {
        return Err(Refusal::NotHttp);
    }
    Ok(preflight_to(alloc, settings.client(), request)?)
}

/// All bytes of the CORS-preflight request of a client's request, or nothing where main fetch sends none (Fetch,
/// section 4.1, "main fetch", step 12, and section 4.8, "CORS-preflight fetch"; RFC 9112, section 3). `NoRequest`;
/// `NotHttp` where its URL is neither http nor https.
pub fn preflight_bytes(
    alloc: Global,
    settings: &Settings,
    asked: &Asked,
) -> Result<Option<Bytes>, Refusal>
    ensures { IsUnlessMemory result (spec.preflight_bytes settings.now asked.now) }
{
    match preflight(alloc, settings, asked)? {
        None => Ok(None),
        Some(hop) => Ok(Some(write_request(alloc, &hop)?)),
    }
}

// The verdict on the head that answers the preflight of a request.
fn verdict_by(alloc: Global, request: &Request, head: &Head) -> Result<Checked, OutOfMemory>
    requires { IsRequest request.now }
    ensures { IfOk result (λ checked. checked ≡ spec.verdict_by head.now request.now) }
{
    let origin = serialized_origin(alloc, request)?;
    let names = unsafe_names(alloc, &request.headers)?;
    verdict(alloc, request, origin.as_slice(), &names, head)
}

/// The verdict on a status and a header list that answer the preflight of a client's request (Fetch, section 4.8,
/// "CORS-preflight fetch", steps 7 and 8). `NoRequest`.
pub fn preflight_verdict(
    alloc: Global,
    settings: &Settings,
    asked: &Asked,
    status: u16,
    list: &HeaderList,
) -> Result<Checked, Refusal>
    ensures { IsUnlessMemory result (spec.preflight_verdict settings.now asked.now
        (record { status = status; headers = list.now })) }
{
    let request = request_of(alloc, settings, asked)?;
    let head = Head {
        status,
        headers: list.copy(alloc)?,
    };
    Ok(verdict_by(alloc, &request, &head)?)
}

/// The name of the header, in lower case, for which an answer with this status and header list to the preflight of a
/// client's request is refused, or nothing where it is not refused for a header (Fetch, section 4.8, "CORS-preflight
/// fetch", steps 7.6 and 7.7). `NoRequest`.
pub fn refused_name(
    alloc: Global,
    settings: &Settings,
    asked: &Asked,
    status: u16,
    list: &HeaderList,
) -> Result<Option<Bytes>, Refusal>
    ensures { IsUnlessMemory result (spec.refused_name settings.now asked.now
        (record { status = status; headers = list.now })) }
{
    match preflight_verdict(alloc, settings, asked, status, list)? {
        Checked::Refused(NetError::PreflightHeader(name)) => Ok(Some(name)),
        _ => Ok(None),
    }
}
