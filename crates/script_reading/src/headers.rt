// Headers, and what those of a document say.
ghost use Rattle.std.specs.Prelude.{◌≡◌, ◌++◌, ◌∷◌, [], length, map, nat_le, IfOk, OnOk};
ghost use Rattle.value_headers.specs.Headers.{values_of};
ghost use Rattle.script_reading.specs.Headers as spec;
ghost use Rattle.script_reading.specs.Scenarios as table;

use policy_csp_text::{Policies, count_policies, parse_policies};
use std::alloc::Global;
use value_bytes::OutOfMemory;
use value_headers::HeaderList;
use value_json::{
    Form, HeaderValue, ItemsOf, PairOf, Refused, TextThat, Token, Tree, refused_here,
};
use value_requests::{Pair, ReferrerPolicy, policy_of_header};
use value_text::eq_fold;

/// How many policies a document has at most.
const MOST_POLICIES: usize = 16;

const HEADER: PairOf<TextThat<Token>, TextThat<HeaderValue>> = PairOf {
    first: TextThat { test: Token },
    second: TextThat { test: HeaderValue },
};

/// A header: its name and its value.
#[derive(Drop)]
pub(crate) struct PlainHeader;

impl Form for PlainHeader {
    type Out = Pair;

    ghost reads = { λ _. table.plain_header_of };

    fn read(&self, alloc: Global, tree: &Tree<'_, '_>) -> Result<Pair, Refused> {
        let (name, value) = HEADER.read(alloc, tree)?;
        Ok(Pair { name, value })
    }
}

const HEADERS: ItemsOf<PlainHeader> = ItemsOf { item: PlainHeader };

// The policies of a header, where it is one of the two that have some.
fn policies_of_header(alloc: Global, header: &Pair) -> Result<Policies, OutOfMemory>
    ensures { IfOk result (λ policies. policies ≡ spec.policies_of_header header.now) }
{
    let name = header.name.as_slice();
    if name.eq_ignore_ascii_case(b"Content-Security-Policy") {
        parse_policies(alloc, header.value.as_slice(), true)
    } else if name.eq_ignore_ascii_case(b"Content-Security-Policy-Report-Only") {
        parse_policies(alloc, header.value.as_slice(), false)
    } else {
        Ok(Policies::new(alloc))
    }
}

// How many policies a header has.
fn count_of_header(header: &Pair) -> usize
    ensures { result ≡ length (spec.policies_of_header header.now) }
{
    let name = header.name.as_slice();
    let has_policies = name.eq_ignore_ascii_case(b"Content-Security-Policy")
        || name.eq_ignore_ascii_case(b"Content-Security-Policy-Report-Only");
    if has_policies {
        count_policies(header.value.as_slice())
    } else {
        0
    }
}

// Whether the headers have no more policies than a document may have. They are counted before one is kept, since there
// may be one for every two bytes.
fn has_few_policies(headers: &[Pair]) -> bool
    ensures { result ≡ nat_le (length (spec.policies_of_headers headers.now)) 16 }
{
    let mut left: usize = MOST_POLICIES;
    for header in headers {
        let count = count_of_header(header);
        if count > left {
            return false;
        }
        left -= count;
    }
    true
}

// Adds policies at the end.
fn add_policies(policies: &mut Policies, more: Policies) -> Result<(), OutOfMemory>
    ensures { OnOk result (policies.new ≡ policies.old ++ more) }
{
    for policy in more.into_vec() {
        policies.push(policy)?;
    }
    Ok(())
}

// The policies of headers, in order.
fn policies_of_headers(alloc: Global, headers: &[Pair]) -> Result<Policies, OutOfMemory>
    ensures { IfOk result (λ policies. policies ≡ spec.policies_of_headers headers.now) }
{
    let mut policies = Policies::new(alloc);
    for header in headers {
        let more = policies_of_header(alloc, header)?;
        add_policies(&mut policies, more)?;
    }
    Ok(policies)
}

// Adds a header at the end, where it has this name.
fn add_named(list: &mut HeaderList, name: &[u8], header: &Pair) -> Result<(), OutOfMemory>
    ensures { OnOk result (values_of name.now list.new
        ≡ values_of name.now list.old ++ values_of name.now (spec.header_of_pair header.now ∷ [])) }
{
    if eq_fold(header.name.as_slice(), name) {
        list.append(header.name.as_slice(), header.value.as_slice())
    } else {
        Ok(())
    }
}

// The headers of this name as a list. The others are left out, since a list looks through its headers for the
// spelling of each new name, and a document may have very many.
fn listed(alloc: Global, headers: &[Pair], name: &[u8]) -> Result<HeaderList, OutOfMemory>
    ensures { IfOk result (λ list. values_of name.now list
        ≡ values_of name.now (map spec.header_of_pair headers.now)) }
{
    let mut list = HeaderList::new(alloc);
    for header in headers {
        add_named(&mut list, name, header)?;
    }
    Ok(list)
}

// A policy that was named, or the default one.
fn policy_or_default(named: ReferrerPolicy) -> ReferrerPolicy
    ensures { result ≡ spec.policy_or_default named }
{
    match named {
        ReferrerPolicy::Empty => ReferrerPolicy::StrictOriginWhenCrossOrigin,
        _ => named,
    }
}

// The referrer policy that headers name, or the default one.
fn policy_of_headers(alloc: Global, headers: &[Pair]) -> Result<ReferrerPolicy, OutOfMemory>
    ensures { IfOk result (λ policy. policy ≡ spec.policy_of_headers headers.now) }
{
    let list = listed(alloc, headers, b"Referrer-Policy")?;
    Ok(policy_or_default(policy_of_header(alloc, &list)?))
}

/// What the headers of a document say: its referrer policy and its policies.
#[derive(Drop)]
pub(crate) struct DocumentHeaders;

impl Form for DocumentHeaders {
    type Out = (ReferrerPolicy, Policies);

    ghost reads = { λ _. table.said_of };

    fn read(
        &self,
        alloc: Global,
        tree: &Tree<'_, '_>,
    ) -> Result<(ReferrerPolicy, Policies), Refused> {
        let headers = HEADERS.read(alloc, tree)?;
        if !has_few_policies(headers.as_slice()) {
            return refused_here(alloc);
        }
        let policies = policies_of_headers(alloc, headers.as_slice())?;
        let policy = policy_of_headers(alloc, headers.as_slice())?;
        Ok((policy, policies))
    }
}
