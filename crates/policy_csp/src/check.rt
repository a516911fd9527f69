// Which policies of a document a request, or the response to it, violates (CSP 3, section 4.1).
ghost use Rattle.std.specs.Prelude.{◌≡◌, ◌<◌, ◌^◌, length, codes, bytes_eq, IfOk};
ghost use Rattle.std.specs.List.{list_any};
ghost use Rattle.policy_csp.specs.Violations as spec;
ghost use Rattle.policy_integrity.specs.Metadata.{metadata_of};
ghost use Rattle.value_requests.specs.Requests.{IsRequest};
ghost use Rattle.value_requests.specs.declared.policy.Destination.TheVariants.{Script};

use crate::compiled::{Compiled, CompiledDirective, CompiledPolicy};
use crate::directives::{deciding_sources, effective_directive};
use crate::listed::passes;
use policy_integrity::{Metadata, parse_metadata};
use std::alloc::Global;
use url::Url;
use value_bytes::{Bytes, Items, OutOfMemory};
use value_origins::{Origin, is_http_url};
use value_requests::{Destination, Request, Violation, strip};

/// Violations, in the order of the policies.
pub type Violations = Items<Violation>;

// "does request violate policy?". The metadata is that of the request, where it is for a script.
fn is_violated(
    alloc: Global,
    policy: &CompiledPolicy,
    metadata: &Metadata,
    request: &Request,
    document: &Origin,
) -> Result<bool, OutOfMemory>
    requires request { IsRequest request.now }
    requires metadata { request.now.destination ≡ Script → metadata.now ≡ metadata_of request.now.integrity }
    ensures { IfOk result (λ answer. answer ≡ spec.is_violated policy.now request.now document.now) }
{
    let directive = effective_directive(request.destination);
    match deciding_sources(policy.directives.as_slice(), directive) {
        None => Ok(false),
        Some(sources) => Ok(!passes(alloc, sources, metadata, request, document)?),
    }
}

// "strip URL for use in reports".
fn stripped_for_report(alloc: Global, url: &Url) -> Result<Bytes, OutOfMemory>
    ensures { IfOk result (λ text. text ≡ spec.stripped_for_report url.now) }
{
    if !is_http_url(url) {
        return Bytes::of(alloc, url.scheme().as_bytes());
    }
    let stripped = strip(url)?;
    Bytes::of(alloc, stripped.as_str().as_bytes())
}

// The URL of a request as it is reported.
fn reported_url(alloc: Global, request: &Request) -> Result<Bytes, OutOfMemory>
    requires { IsRequest request.now }
    ensures { IfOk result (λ text. text ≡ spec.stripped_for_report (spec.first_url request.now.urls)) }
{
    stripped_for_report(alloc, request.urls.at(0))
}

// "create a violation object for request, and policy".
fn violation(
    alloc: Global,
    number: u32,
    policy: &CompiledPolicy,
    request: &Request,
) -> Result<Violation, OutOfMemory>
    requires { IsRequest request.now }
    ensures { IfOk result (λ violation. violation ≡ spec.violation number policy.now request.now) }
{
    Ok(Violation {
        policy: number,
        enforced: policy.enforced,
        directive: effective_directive(request.destination),
        url: reported_url(alloc, request)?,
    })
}

// Whether a policy is asked: each is, or those of one disposition.
fn is_asked(asked: Option<bool>, policy: &CompiledPolicy) -> bool
    ensures { result ≡ spec.is_asked asked policy.now }
{
    match asked {
        None => true,
        Some(true) => policy.enforced,
        Some(false) => !policy.enforced,
    }
}

// Whether one of the policies is asked.
fn any_asked(asked: Option<bool>, policies: &[CompiledPolicy]) -> bool
    ensures { result ≡ list_any (spec.is_asked asked) policies.now }
{
    policies.iter().any(|policy| is_asked(asked, policy))
}

// The integrity metadata of a request for a script. Of another request none is read, since no source list asks for it.
fn script_metadata(alloc: Global, request: &Request) -> Result<Metadata, OutOfMemory>
    ensures { IfOk result (λ metadata. request.now.destination ≡ Script
        → metadata ≡ metadata_of request.now.integrity) }
{
    match request.destination {
        Destination::Script => parse_metadata(alloc, request.integrity.as_slice()),
        _ => parse_metadata(alloc, b""),
    }
}

// The violations of those of the policies that are asked.
#[tactic(auto, using(crate::proofs::AskedLemmas::none_asked))]
fn violations(
    alloc: Global,
    asked: Option<bool>,
    policies: &[CompiledPolicy],
    request: &Request,
    document: &Origin,
) -> Result<Violations, OutOfMemory>
    requires request { IsRequest request.now }
    requires counted { length policies.now < 2 ^ 32 }
    ensures { IfOk result (λ found. found
        ≡ spec.violations_from 0 asked policies.now request.now document.now) }
{
    // most documents have no policy, or none of this disposition, and then nothing need be read
    if !any_asked(asked, policies) {
        return Ok(Violations::new(alloc));
    }
    let metadata = script_metadata(alloc, request)?;
    let mut found = Violations::new(alloc);
    for (index, policy) in policies.iter().enumerate() {
        if is_asked(asked, policy) && is_violated(alloc, policy, &metadata, request, document)? {
            found.push(violation(alloc, index as u32, policy, request)?)?;
        }
    }
    Ok(found)
}

// Whether one of the violations is of an enforced policy.
fn has_enforced(violations: &[Violation]) -> bool
    ensures { result ≡ spec.has_enforced violations.now }
{
    violations.iter().any(|violation| violation.enforced)
}

// Whether one of the directives is `upgrade-insecure-requests`.
fn has_upgrade(directives: &[CompiledDirective]) -> bool
    ensures { result ≡ list_any (λ directive. bytes_eq directive.name (codes "upgrade-insecure-requests"))
        directives.now }
{
    directives.iter().any(|directive| directive.name.as_slice()
        == b"upgrade-insecure-requests".as_slice())
}

// Whether the policy is enforced and has the directive `upgrade-insecure-requests`.
fn upgrades_policy(policy: &CompiledPolicy) -> bool
    ensures { result ≡ spec.upgrades_policy policy.now }
{
    policy.enforced && has_upgrade(policy.directives.as_slice())
}

// Whether one of the policies is enforced and has this directive.
fn any_upgrades(policies: &[CompiledPolicy]) -> bool
    ensures { result ≡ list_any spec.upgrades_policy policies.now }
{
    policies.iter().any(|policy| upgrades_policy(policy))
}

impl Compiled {
    /// Whether an enforced policy has `upgrade-insecure-requests`: the document's requests for http URLs
    /// are then made for https ones (Fetch, "upgrade request to a potentially trustworthy URL, if
    /// appropriate"). It takes no memory.
    #[tactic(auto, using(crate::proofs::KeptLemmas::upgrades_kept))]
    pub fn upgrades(&self) -> bool
        ensures { result ≡ spec.upgrades self.now }
    {
        any_upgrades(self.policies.as_slice())
    }

    /// The violations of a request by the policies of one disposition, in order: of the enforced ones
    /// ("should request be blocked by Content Security Policy?", CSP 3, section 4.1), or of the
    /// report-only ones ("report Content Security Policy violations for request"). Each has the policy's
    /// number, counted over all policies from 0, the effective directive, and the request's URL without
    /// user name, password and fragment. What is checked is the current URL.
    #[tactic(auto, using(crate::proofs::KeptLemmas::kept_from))]
    pub fn check_request(
        &self,
        alloc: Global,
        request: &Request,
        document: &Origin,
        enforced: bool,
    ) -> Result<Violations, OutOfMemory>
        requires { IsRequest request.now }
        ensures { IfOk result (λ found. found
            ≡ spec.request_violations self.now request.now document.now enforced) }
    {
        violations(
            alloc,
            Some(enforced),
            self.policies.as_slice(),
            request,
            document,
        )
    }

    /// The violations of the response to a request by all policies, in order, and whether one of these
    /// enforces, so that the response is blocked ("should response to request be blocked by Content
    /// Security Policy?", CSP 3, section 4.1).
    #[tactic(auto, using(crate::proofs::KeptLemmas::kept_from))]
    pub fn check_response(
        &self,
        alloc: Global,
        request: &Request,
        document: &Origin,
    ) -> Result<(Violations, bool), OutOfMemory>
        requires { IsRequest request.now }
        ensures { IfOk result (λ found. (found.0 ≡ spec.response_violations self.now request.now document.now)
            × (found.1 ≡ spec.has_enforced found.0)) }
    {
        let found = violations(alloc, None, self.policies.as_slice(), request, document)?;
        let blocked = has_enforced(found.as_slice());
        Ok((found, blocked))
    }
}
