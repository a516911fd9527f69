// Known hosts, found by their names and by when their terms end.
ghost use Rattle.std.specs.Prelude.{◌≡◌, [], length, Some, None, IfOk, OnOk, OnErr, option_copied};
ghost use Rattle.std.specs.List.{list_all};
ghost use Rattle.std.specs.Ordering.{is_lt};
ghost use Rattle.value_text.specs.Orders.{text_cmp};
ghost use Rattle.book_hosts.specs.Hosts.{AreSorted, known_host, with_host, without};
ghost use Rattle.book_hosts.specs.Private.Terms.{IsFirstToEnd, is_under, term_in};

use crate::hosts::KnownHost;
use crate::walk::{are_before, copies, is_under};
use std::alloc::Global;
use std::collections::{BTreeMap, BTreeSet};
use std::marker::Model;
use value_bytes::{Bytes, OutOfMemory};

/// With or without subdomains, and until when a host is known.
#[derive(Clone, Copy)]
pub(crate) struct Term {
    pub(crate) subdomains: bool,
    pub(crate) until: u64,
}

/// Known hosts, found by name and by the end of their term; seen as the list of them, sorted by the
/// bytes of the host.
#[derive(Drop)]
pub(crate) struct Index {
    /// Each host's term.
    terms: BTreeMap<Vec<u8>, Term>,
    /// When each host's term ends, the earliest first.
    ends: BTreeSet<(u64, Vec<u8>)>,
}

impl Model for Index {
    ghost use Rattle.std.specs.Prelude.{List};
    ghost use Rattle.book_hosts.specs.declared.hosts.KnownHost.{KnownHost};
    ghost use Rattle.book_hosts.specs.Private.Index.{IsIndexed, listed};

    ghost Value = { List KnownHost };

    ghost view = { λ index. listed (λ name. name.items) index.terms.entries };

    ghost invariant = { λ index. IsIndexed (λ name. name.items) index.terms.entries index.ends.keys };
}

impl Index {
    // No hosts. It takes no memory.
    pub(crate) fn new(alloc: Global) -> Index
        ensures { result ≡ [] }
    {
        Index {
            terms: BTreeMap::new(alloc),
            ends: BTreeSet::new(alloc),
        }
    }

    // How many hosts there are.
    pub(crate) fn len(&self) -> usize
        ensures len { result ≡ length self.now }
        ensures sorted { AreSorted self.now }
    {
        self.terms.len()
    }

    // The term of a host, if it is known.
    pub(crate) fn term_of(&self, host: &[u8]) -> Option<Term>
        ensures term { result ≡ term_in host.now self.now }
        ensures sorted { AreSorted self.now }
    {
        self.terms.get(host).copied()
    }

    // The host whose term ends first; of several whose terms end then, the first by its bytes.
    pub(crate) fn first_to_end(&self) -> Option<&[u8]>
        ensures { IsFirstToEnd (option_copied result) self.now }
    {
        match self.ends.first() {
            Some((_, name)) => Some(name.as_slice()),
            None => None,
        }
    }

    // Whether each host comes before this one in the order of bytes.
    pub(crate) fn are_before(&self, host: &[u8]) -> bool
        ensures before { result ≡ list_all (λ known. is_lt (text_cmp known.host host.now)) self.now }
        ensures sorted { AreSorted self.now }
    {
        are_before(&self.terms, host)
    }

    // Whether the name ends in a dot and a host with subdomains whose term has not ended.
    pub(crate) fn is_above(&self, name: &[u8], now: u64) -> bool
        ensures { result ≡ is_under self.now name.now now }
    {
        is_under(&self.terms, name, now)
    }

    // Copies of the hosts, in order.
    pub(crate) fn copies(&self, alloc: Global) -> Result<Vec<KnownHost>, OutOfMemory>
        ensures { IfOk result (λ hosts. hosts.items ≡ self.now) }
    {
        copies(alloc, &self.terms)
    }

    // Takes a host out, if it is there.
    pub(crate) fn take_out(&mut self, host: &[u8])
        ensures { self.new ≡ without host.now self.old }
    {
        if let Some((name, term)) = self.terms.remove_entry(host) {
            self.ends.remove(&(term.until, name));
        }
    }

    // Gives a host a term, in the place of the one that it has.
    pub(crate) fn put(&mut self, alloc: Global, host: Bytes, term: Term) -> Result<(), OutOfMemory>
        ensures ok { OnOk result
            (self.new ≡ with_host (known_host host term.subdomains term.until) self.old) }
        ensures err { OnErr result (self.new ≡ self.old) }
    {
        let host = host.into_vec()?;
        match self.term_of(host.as_slice()) {
            Some(old) => self.replace(alloc, host, old, term),
            None => self.add(alloc, host, term),
        }
    }

    // Gives a host that is there another term.
    fn replace(
        &mut self,
        alloc: Global,
        host: Vec<u8>,
        old: Term,
        term: Term,
    ) -> Result<(), OutOfMemory>
        requires { term_in host.items self.old ≡ Some old }
        ensures ok { OnOk result
            (self.new ≡ with_host (known_host host.items term.subdomains term.until) self.old) }
        ensures err { OnErr result (self.new ≡ self.old) }
    {
        let end = (term.until, Vec::from_slice(alloc, host.as_slice())?);
        let ended = (old.until, host);
        if self.ends.insert(end)? {
            self.ends.remove(&ended);
        }
        match self.terms.insert(ended.1, term) {
            Ok(_) => Ok(()),
            // A host that is there needs no memory.
            Err(_) => unreachable!(),
        }
    }

    // Adds a host that is not there.
    fn add(&mut self, alloc: Global, host: Vec<u8>, term: Term) -> Result<(), OutOfMemory>
        requires { term_in host.items self.old ≡ None }
        ensures ok { OnOk result
            (self.new ≡ with_host (known_host host.items term.subdomains term.until) self.old) }
        ensures err { OnErr result (self.new ≡ self.old) }
    {
        let end = (term.until, Vec::from_slice(alloc, host.as_slice())?);
        self.ends.insert(end)?;
        match self.terms.insert(host, term) {
            Ok(_) => Ok(()),
            Err(refused) => {
                let (name, _) = refused.value;
                self.ends.remove(&(term.until, name));
                Err(OutOfMemory)
            }
        }
    }
}
