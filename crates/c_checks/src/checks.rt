// Mixed content and policies.
ghost use Rattle.std.specs.Prelude.{◌≡◌, IfOk};
ghost use Rattle.c_checks.specs.Checks as spec;
ghost use Rattle.c_rules.specs.Answers.{IsUnlessMemory};
ghost use Rattle.value_requests.specs.Requests.{IsRequest};

use crate::requested::request_at;
use c_fetch::{Asked, Settings};
use c_rules::Refusal;
use policy_csp::{Compiled, Violations};
use std::alloc::Global;
use value_bytes::OutOfMemory;
use value_requests::{Client, Request};

/// Which policies are asked, and of what (CSP 3, section 4.1).
#[derive(Clone, Copy, Debug, PartialEq, Eq)]
pub enum Check {
    /// The enforced ones, of the request: "should request be blocked by Content Security Policy?"
    Enforced,
    /// The report-only ones, of the request: "report Content Security Policy violations for request".
    ReportOnly,
    /// All, of its response: "should response to request be blocked by Content Security Policy?"
    Response,
}

/// Whether a client's request is upgraded as mixed content (Mixed Content, section 4.1, "upgrade a mixed content
/// request to a potentially trustworthy URL, if appropriate"). The refusals are those of `request_at`.
pub fn is_mixed_upgraded(
    alloc: Global,
    settings: &Settings,
    asked: &Asked,
    redirect: &[u8],
) -> Result<bool, Refusal>
    ensures { IsUnlessMemory result (spec.is_mixed_upgraded settings.now asked.now redirect.now) }
{
    let request = request_at(alloc, settings, asked, redirect)?;
    let client = settings.client();
    Ok(policy_checks::upgrade(&request, &client.origin, &client.top))
}

/// Whether a client's request is blocked as mixed content (Mixed Content, section 4.4, "should fetching request be
/// blocked as mixed content?"). The refusals are those of `request_at`.
pub fn is_mixed_blocked(
    alloc: Global,
    settings: &Settings,
    asked: &Asked,
    redirect: &[u8],
) -> Result<bool, Refusal>
    ensures { IsUnlessMemory result (spec.is_mixed_blocked settings.now asked.now redirect.now) }
{
    let request = request_at(alloc, settings, asked, redirect)?;
    let client = settings.client();
    Ok(policy_checks::blocked(&request, &client.origin, &client.top))
}

// The violations by a check of a client's request.
fn violations_by(
    alloc: Global,
    check: Check,
    policies: &Compiled,
    client: &Client,
    request: &Request,
) -> Result<Violations, OutOfMemory>
    requires { IsRequest request.now }
    ensures { IfOk result (λ found. found ≡ spec.violations_by check policies.now client.now request.now) }
{
    match check {
        Check::Enforced => policies.check_request(alloc, request, &client.origin, true),
        Check::ReportOnly => policies.check_request(alloc, request, &client.origin, false),
        Check::Response => {
            let (found, _) = policies.check_response(alloc, request, &client.origin)?;
            Ok(found)
        }
    }
}

/// The violations of policies by a client's request, or its response (CSP 3, section 4.1). The refusals are those of
/// `request_at`.
pub fn violations_of(
    alloc: Global,
    check: Check,
    policies: &Compiled,
    settings: &Settings,
    asked: &Asked,
    redirect: &[u8],
) -> Result<Violations, Refusal>
    ensures { IsUnlessMemory result (spec.violations_of check policies.now settings.now asked.now redirect.now) }
{
    let request = request_at(alloc, settings, asked, redirect)?;
    Ok(violations_by(alloc, check, policies, settings.client(), &request)?)
}
