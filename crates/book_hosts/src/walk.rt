// What goes through all known hosts: copies of them, and questions that no look-up by name answers.
ghost use Rattle.std.specs.Prelude.{◌≡◌, ◌&&◌, ◌∷◌, nat_eq, nat_lt, IfOk};
ghost use Rattle.std.specs.List.{ends_with, list_all};
ghost use Rattle.std.specs.Ordering.{is_lt};
ghost use Rattle.value_text.specs.Ascii.{dot};
ghost use Rattle.value_text.specs.Orders.{text_cmp};
ghost use Rattle.book_hosts.specs.Private.Index.{listed};
ghost use Rattle.book_hosts.specs.Private.Terms.{is_dot_and, is_under};

use crate::hosts::KnownHost;
use crate::index::Term;
use std::alloc::Global;
use std::collections::BTreeMap;
use value_bytes::{Bytes, OutOfMemory};

// Whether each host comes before this one in the order of bytes: the last does.
pub(crate) fn are_before(terms: &BTreeMap<Vec<u8>, Term>, host: &[u8]) -> bool
    ensures { result
        ≡ list_all (λ known. is_lt (text_cmp known.host host.now)) (listed (λ name. name.items) terms.now.entries) }
{
    match terms.last_key_value() {
        Some((last, _)) => last.as_slice().cmp(host).is_lt(),
        None => true,
    }
}

// Copies of the hosts, in order.
pub(crate) fn copies(
    alloc: Global,
    terms: &BTreeMap<Vec<u8>, Term>,
) -> Result<Vec<KnownHost>, OutOfMemory>
    ensures { IfOk result (λ hosts. hosts.items ≡ listed (λ name. name.items) terms.now.entries) }
{
    let mut hosts = Vec::new(alloc);
    for (name, term) in terms {
        let host = Bytes::of(alloc, name.as_slice())?;
        hosts.push(KnownHost {
            host,
            subdomains: term.subdomains,
            until: term.until,
        })?;
    }
    Ok(hosts)
}

// Whether the text is a dot and the host.
fn is_dot_and(text: &[u8], host: &[u8]) -> bool
    ensures { result ≡ is_dot_and host.now text.now }
{
    match text {
        [b'.', rest @ ..] => host == rest,
        _ => false,
    }
}

// Whether the name ends in a dot and the host.
#[tactic(auto, using(crate::proofs::UnderLemmas::ends_nowhere, crate::proofs::UnderLemmas::ends_there))]
fn ends_under(name: &[u8], host: &[u8]) -> bool
    ensures { result ≡ ends_with nat_eq name.now (dot ∷ host.now) }
{
    if name.len() <= host.len() {
        return false;
    }
    is_dot_and(name.split_at(name.len() - host.len() - 1).1, host)
}

// Whether the host has subdomains, its term has not ended, and the name ends in a dot and the host.
fn is_above(host: &[u8], term: Term, name: &[u8], now: u64) -> bool
    ensures { result ≡ ((term.subdomains && ends_with nat_eq name.now (dot ∷ host.now)) && nat_lt now term.until) }
{
    term.subdomains && ends_under(name, host) && now < term.until
}

// Whether the name ends in a dot and a host with subdomains whose term has not ended. Each host is compared once.
pub(crate) fn is_under(terms: &BTreeMap<Vec<u8>, Term>, name: &[u8], now: u64) -> bool
    ensures { result ≡ is_under (listed (λ name. name.items) terms.now.entries) name.now now }
{
    for (host, term) in terms {
        if is_above(host.as_slice(), *term, name, now) {
            return true;
        }
    }
    false
}
