// Rows of checks of a request; POLICIES are a document's, each text `enforce:VALUE` or `report:VALUE`:
//
//     upgrades POLICIES              whether http requests are upgraded
//     reported REQUEST POLICIES      the violations of the report-only policies
//     refused REQUEST POLICIES       those of the enforced ones
//     response REQUEST POLICIES      whether its response is blocked, and the violations of all policies
ghost use Rattle.value_requests.specs.Requests.{IsRequest};

use policy_csp::{Compiled, Violations};
use policy_csp_text::{Policies, parse_policies};
use rows_shell::{Failed, Held, Row, Shown};
use std::alloc::Global;
use value_requests::{Request, Violation};
use value_text::{after_byte, before_byte};

// Adds the policies of a text.
fn add_policies(alloc: Global, policies: &mut Policies, text: &[u8]) -> Result<(), Failed> {
    let enforced = before_byte(text, b':') == b"enforce".as_slice();
    for policy in parse_policies(alloc, after_byte(text, b':'), enforced)?.into_vec() {
        policies.push(policy)?;
    }
    Ok(())
}

// The policies of the texts from an index on.
fn policies_of(alloc: Global, row: &Row, from: usize) -> Result<Policies, Failed> {
    let mut policies = Policies::new(alloc);
    for index in from..row.len() {
        add_policies(alloc, &mut policies, row.text(index))?;
    }
    Ok(policies)
}

// The same, ready for checks.
fn compiled_of(alloc: Global, row: &Row, from: usize) -> Result<Held<Compiled>, Failed> {
    let policies = Held {
        value: policies_of(alloc, row, from)?,
    };
    if policies.value.len() > 1_000 {
        return Err(Failed);
    }
    Ok(Held {
        value: Compiled::of(alloc, &policies.value)?,
    })
}

// Whether the row's policies upgrade http requests.
pub(crate) fn upgrades(alloc: Global, row: &Row, shown: &mut Shown) -> Result<(), Failed> {
    let compiled = compiled_of(alloc, row, 0)?;
    shown.add_yes_or_no(compiled.value.upgrades());
    Ok(())
}

// The violations of a row's request by the policies of one disposition.
pub(crate) fn checked(
    alloc: Global,
    row: &Row,
    request: &Request,
    enforced: bool,
    shown: &mut Shown,
) -> Result<(), Failed>
    requires { IsRequest request.now }
{
    let compiled = compiled_of(alloc, row, 1)?;
    let found = compiled
        .value
        .check_request(alloc, request, &request.origin, enforced)?;
    show_violations(&found, shown);
    Ok(())
}

// Whether the response to a row's request is blocked, and the violations.
pub(crate) fn response(
    alloc: Global,
    row: &Row,
    request: &Request,
    shown: &mut Shown,
) -> Result<(), Failed>
    requires { IsRequest request.now }
{
    let compiled = compiled_of(alloc, row, 1)?;
    let (found, blocked) = compiled
        .value
        .check_response(alloc, request, &request.origin)?;
    shown.add(if blocked { b"blocked " } else { b"passes " });
    show_violations(&found, shown);
    Ok(())
}

// Violations, with a bar after each.
fn show_violations(violations: &Violations, shown: &mut Shown) {
    for violation in violations.as_slice() {
        show_violation(violation, shown);
        shown.add(b"|");
    }
}

// A violation: its policy's number and disposition, the directive and the URL.
fn show_violation(violation: &Violation, shown: &mut Shown) {
    shown.add_number(u64::from(violation.policy));
    shown.add(if violation.enforced {
        b" enforce "
    } else {
        b" report "
    });
    shown.add(violation.directive.name().as_bytes());
    shown.add(b" ");
    shown.add_escaped(violation.url.as_slice());
}
