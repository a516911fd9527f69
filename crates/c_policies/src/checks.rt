// What is asked of a request before it is sent.
ghost use Rattle.std.specs.Prelude.{◌≡◌, ◌≢◌};
ghost use Rattle.c_checks.specs.Checks as checks;
ghost use Rattle.c_policies.specs.Checks as spec;
ghost use Rattle.c_policies.specs.Checks.{HasFound, HasFoundBy};

use c_checks::{Check, is_mixed_blocked, is_mixed_upgraded, violations_of};
use c_fetch::{Asked, Settings};
use c_handle::{
    Found, Handle, NO_SUCH_NUMBER, OK, OUT_OF_MEMORY, Thing, WRONG_HANDLE, code_of, told, yes_or_no,
};
use policy_csp::Compiled;
use std::alloc::Global;

/// Checks of a request: by the enforced policies, before it is sent.
pub const CHECK_ENFORCED: u32 = 0;

/// By the report-only policies, before it is sent.
pub const CHECK_REPORT_ONLY: u32 = 1;

/// By all policies, of its response.
pub const CHECK_RESPONSE: u32 = 2;

/// Whether a client's request is upgraded as mixed content: for an image, audio or video of a page that is potentially
/// trustworthy, http becomes https (Mixed Content, section 4.1, "upgrade a mixed content request to a potentially
/// trustworthy URL, if appropriate"). `redirect` is the URL to which the request was redirected, or empty.
///
/// `OK` where it is upgraded; `NO`, which alone leaves an http URL as it is; `WRONG_HANDLE`; `NO_REQUEST` where none
/// can be made of what is asked for, or nothing redirects it; `NOT_A_URL` and `NOT_HTTP`, of `redirect`;
/// `OUT_OF_MEMORY`.
#[unsafe(no_mangle)]
pub extern "C" fn fiorrudda_mixed_upgraded(
    alloc: Global,
    client: &mut Handle,
    request: &mut Handle,
    redirect: &[u8],
) -> u32
    ensures told { result ≢ OUT_OF_MEMORY
        → result ≡ spec.mixed_upgraded client.old.held request.old.held redirect.now }
    ensures client { client.new.held ≡ client.old.held }
    ensures request { request.new.held ≡ request.old.held }
{
    let Some(settings) = client.client() else {
        return WRONG_HANDLE;
    };
    let Some(asked) = request.request() else {
        return WRONG_HANDLE;
    };
    told(is_mixed_upgraded(alloc, settings, asked, redirect))
}

/// Whether a client's request is blocked as mixed content (Mixed Content, section 4.4, "should fetching request be
/// blocked as mixed content?"). Ask first whether it is upgraded: one that is, is not blocked. `redirect` is the URL to
/// which the request was redirected, or empty.
///
/// `OK` where it is blocked; `NO`, which alone gives leave; and the other codes of `fiorrudda_mixed_upgraded`.
#[unsafe(no_mangle)]
pub extern "C" fn fiorrudda_mixed_blocked(
    alloc: Global,
    client: &mut Handle,
    request: &mut Handle,
    redirect: &[u8],
) -> u32
    ensures told { result ≢ OUT_OF_MEMORY
        → result ≡ spec.mixed_blocked client.old.held request.old.held redirect.now }
    ensures client { client.new.held ≡ client.old.held }
    ensures request { request.new.held ≡ request.old.held }
{
    let Some(settings) = client.client() else {
        return WRONG_HANDLE;
    };
    let Some(asked) = request.request() else {
        return WRONG_HANDLE;
    };
    told(is_mixed_blocked(alloc, settings, asked, redirect))
}

// The check of a number.
fn check_numbered(number: u32) -> Option<Check>
    ensures { result ≡ spec.check_numbered number }
{
    match number {
        CHECK_ENFORCED => Some(Check::Enforced),
        CHECK_REPORT_ONLY => Some(Check::ReportOnly),
        CHECK_RESPONSE => Some(Check::Response),
        _ => None,
    }
}

// Makes in a handle the violations of policies.
fn found(
    alloc: Global,
    violations: &mut Handle,
    check: Check,
    policies: &Compiled,
    settings: &Settings,
    asked: &Asked,
    redirect: &[u8],
) -> u32
    ensures told { result ≢ OUT_OF_MEMORY → HasFound (checks.violations_of check policies.now settings.now asked.now
        redirect.now) result violations.old.held violations.new.held }
    ensures out_of_memory { result ≡ OUT_OF_MEMORY → violations.new.held ≡ violations.old.held }
{
    match violations_of(alloc, check, policies, settings, asked, redirect) {
        Err(refusal) => code_of(refusal),
        Ok(found) => {
            let passes = found.is_empty();
            let found = Found { violations: found };
            match violations.fill(alloc, Thing::Violations(found)) {
                OK => yes_or_no(passes),
                code => code,
            }
        }
    }
}

/// Makes in a handle the violations of policies by a client's request, or by its response: one of the numbers
/// `CHECK_..` (CSP 3, section 4.1, "should request be blocked by Content Security Policy?", "report Content Security
/// Policy violations for request" and "should response to request be blocked by Content Security Policy?"). They are in
/// the order of the policies. `redirect` is the URL to which the request was redirected, or empty. What the handle held
/// is freed.
///
/// `OK` where nothing is violated; `NO` where something is; `NO_SUCH_NUMBER`; `WRONG_HANDLE`, of the policies, the
/// client or the request; `NO_REQUEST` where none can be made of what is asked for, or nothing redirects it;
/// `NOT_A_URL` and `NOT_HTTP`, of `redirect`; `OUT_OF_MEMORY`. Except for `OK` and `NO` the handle holds what it held.
///
/// A response is blocked where `fiorrudda_violation` tells `enforced` 1 of one of the violations: report-only ones
/// never block, though the code is `NO` for them. The client's own policies are not asked. A request that a policy or
/// Mixed Content upgrades is to be asked with its https URL.
#[unsafe(no_mangle)]
pub extern "C" fn fiorrudda_check(
    alloc: Global,
    violations: &mut Handle,
    policies: &mut Handle,
    client: &mut Handle,
    request: &mut Handle,
    redirect: &[u8],
    check: u32,
) -> u32
    ensures told { result ≢ OUT_OF_MEMORY → HasFoundBy (spec.check_numbered check) policies.old.held client.old.held
        request.old.held redirect.now result violations.old.held violations.new.held }
    ensures out_of_memory { result ≡ OUT_OF_MEMORY → violations.new.held ≡ violations.old.held }
    ensures policies { policies.new.held ≡ policies.old.held }
    ensures client { client.new.held ≡ client.old.held }
    ensures request { request.new.held ≡ request.old.held }
{
    let Some(check) = check_numbered(check) else {
        return NO_SUCH_NUMBER;
    };
    let Some(compiled) = policies.policies() else {
        return WRONG_HANDLE;
    };
    let Some(settings) = client.client() else {
        return WRONG_HANDLE;
    };
    let Some(asked) = request.request() else {
        return WRONG_HANDLE;
    };
    found(
        alloc, violations, check, compiled, settings, asked, redirect,
    )
}
