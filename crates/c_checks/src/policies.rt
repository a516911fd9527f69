// The policies that a header list has.
ghost use Rattle.std.specs.Prelude.{◌≡◌, ◌++◌, IfOk, OnOk};
ghost use Rattle.value_headers.specs.Headers.{combined};
ghost use Rattle.c_checks.specs.Policies as spec;

use policy_csp::Compiled;
use policy_csp_text::{Policies, parse_policies};
use std::alloc::Global;
use value_bytes::OutOfMemory;
use value_headers::HeaderList;

/// How many policies are too many for a document: it is want of memory.
const TOO_MANY: usize = 4_294_967_296;

// The policies of a field, if it is there.
fn field_policies(
    alloc: Global,
    list: &HeaderList,
    name: &[u8],
    enforced: bool,
) -> Result<Policies, OutOfMemory>
    ensures { IfOk result (λ policies. policies ≡ spec.policies_of_field enforced (combined name.now list.now)) }
{
    match list.get(alloc, name)? {
        None => Ok(Policies::new(alloc)),
        Some(value) => parse_policies(alloc, value.as_slice(), enforced),
    }
}

// Adds policies behind those that a list has.
fn add_all(policies: &mut Policies, more: Policies) -> Result<(), OutOfMemory>
    ensures { OnOk result (policies.new ≡ policies.old ++ more) }
{
    for policy in more.into_vec() {
        policies.push(policy)?;
    }
    Ok(())
}

/// The policies of a header list, ready for checks (CSP 3, section 2.2, "parse a response's Content Security
/// Policies"): those of Content-Security-Policy, which are enforced, and then those of
/// Content-Security-Policy-Report-Only. They are numbered from 0 on in this order.
pub fn policies_in(alloc: Global, list: &HeaderList) -> Result<Compiled, OutOfMemory>
    ensures { IfOk result (λ policies. policies ≡ spec.policies_in list.now) }
{
    let mut policies = field_policies(alloc, list, b"Content-Security-Policy", true)?;
    let reported = field_policies(alloc, list, b"Content-Security-Policy-Report-Only", false)?;
    add_all(&mut policies, reported)?;
    if policies.len() >= TOO_MANY {
        return Err(OutOfMemory);
    }
    Compiled::of(alloc, &policies)
}
