// The list of known HSTS hosts, and what a Strict-Transport-Security field does to it (RFC 6797, sections 8.1 and 8.2).
ghost use Rattle.std.specs.Prelude.{◌≡◌, ◌^◌, ◌<◌, ◌≤◌, ◌&&◌, [], length, nat_lt, IfOk, OnOk, OnErr};
ghost use Rattle.book_hosts.specs.Hosts.{AreHosts, extended, matches_host, may_stand_last, noted, without};
ghost use Rattle.book_hosts.specs.Private.Terms.{IsLeaving, begins_under, covers, holds_alive, is_under, passes};

use crate::index::{Index, Term};
use crate::sts::Sts;
use std::alloc::Global;
use std::marker::Model;
use value_bytes::{Bytes, OutOfMemory};

/// How many hosts a list holds at most (profile).
const MOST_HOSTS: usize = 4096;

/// How many bytes the longest name of the DNS has as text: 255 with the lengths of its labels, that of the root among
/// them (RFC 1035, section 2.3.4).
const LONGEST_NAME: usize = 253;

/// A known HSTS host, as contracts see an entry of a list (RFC 6797, section 8.1.1).
#[derive(Drop)]
pub struct KnownHost {
    /// The host's domain, as a URL has it.
    pub host: Bytes,
    /// Whether the names under the host are known too.
    pub subdomains: bool,
    /// The first second in which the host is not known any more.
    pub until: u64,
}

/// The known HSTS hosts, seen as the list of them sorted by the bytes of the host, each host once, at
/// most 4,096.
#[derive(Drop)]
pub struct HstsList {
    alloc: Global,
    index: Index,
}

impl Model for HstsList {
    ghost use Rattle.std.specs.Prelude.{List};
    ghost use Rattle.book_hosts.specs.Hosts.{AreHosts};
    ghost use Rattle.book_hosts.specs.declared.hosts.KnownHost.{KnownHost};

    ghost Value = { List KnownHost };

    ghost view = { λ list. list.index };

    ghost invariant = { λ list. AreHosts list.index };
}

// Whether there is a term that has not ended.
fn is_alive(term: Option<Term>, now: u64) -> bool
    ensures { result ≡ passes (λ term. nat_lt now term.until) term }
{
    match term {
        Some(term) => now < term.until,
        None => false,
    }
}

// Whether there is a term with subdomains that has not ended.
fn covers_subdomains(term: Option<Term>, now: u64) -> bool
    ensures { result ≡ passes (λ term. term.subdomains && nat_lt now term.until) term }
{
    match term {
        Some(term) => term.subdomains && now < term.until,
        None => false,
    }
}

// Whether the host itself is there, and its term has not ended.
fn holds_alive(index: &Index, host: &[u8], now: u64) -> bool
    ensures { result ≡ holds_alive index.now host.now now }
{
    is_alive(index.term_of(host), now)
}

// Whether the host is there with subdomains, and its term has not ended.
fn covers(index: &Index, host: &[u8], now: u64) -> bool
    ensures { result ≡ covers index.now host.now now }
{
    covers_subdomains(index.term_of(host), now)
}

// Whether the text is a dot and such a host.
fn begins_under(index: &Index, text: &[u8], now: u64) -> bool
    ensures { result ≡ begins_under index.now text.now now }
{
    match text {
        [b'.', host @ ..] => covers(index, host, now),
        _ => false,
    }
}

// Whether the name ends in a dot and such a host: each text after a dot is looked up.
fn has_known_end(index: &Index, name: &[u8], now: u64) -> bool
    ensures { result ≡ is_under index.now name.now now }
{
    for start in 0..name.len() {
        if begins_under(index, name.split_at(start).1, now) {
            return true;
        }
    }
    false
}

// Whether the name ends in a dot and such a host. For a name that is longer than any of the DNS each host is compared
// once, since it may have thousands of dots, and as long a text after each.
fn is_under(index: &Index, name: &[u8], now: u64) -> bool
    ensures { result ≡ is_under index.now name.now now }
{
    if name.len() > LONGEST_NAME {
        index.is_above(name, now)
    } else {
        has_known_end(index, name, now)
    }
}

// Whether fewer than 4,096 other hosts are known.
fn has_room(index: &Index, host: &[u8]) -> bool
    requires { length index.now ≤ 4096 }
    ensures { result ≡ nat_lt (length (without host.now index.now)) 4096 }
{
    index.len() < MOST_HOSTS || index.term_of(host).is_some()
}

// The host that goes where there is no room for this one.
fn leaving_for(alloc: Global, index: &Index, host: &[u8]) -> Result<Option<Bytes>, OutOfMemory>
    requires { length index.now ≤ 4096 }
    ensures { IfOk result (λ leaving. IsLeaving leaving host.now index.now) }
{
    if has_room(index, host) {
        return Ok(None);
    }
    match index.first_to_end() {
        Some(name) => Ok(Some(Bytes::of(alloc, name)?)),
        None => Ok(None),
    }
}

impl HstsList {
    /// The empty list. It takes no memory.
    pub fn new(alloc: Global) -> HstsList
        ensures empty { result ≡ [] }
        ensures hosts { AreHosts result }
    {
        HstsList {
            alloc,
            index: Index::new(alloc),
        }
    }

    /// How many hosts there are.
    pub fn len(&self) -> usize
        ensures len { result ≡ length self.now }
        ensures hosts { AreHosts self.now }
    {
        self.index.len()
    }

    /// Whether the name is known at this time, in seconds: whether a host of the list whose term has
    /// not ended is the name, or has subdomains and the name ends in a dot and the host (RFC 6797,
    /// section 8.2). It takes no memory.
    pub fn is_known(&self, host: &[u8], now: u64) -> bool
        ensures known { result ≡ matches_host self.now host.now now }
        ensures hosts { AreHosts self.now }
    {
        holds_alive(&self.index, host, now) || is_under(&self.index, host, now)
    }

    /// Copies of the hosts, in the order of their bytes.
    pub fn copies(&self, alloc: Global) -> Result<Vec<KnownHost>, OutOfMemory>
        ensures copies { IfOk result (λ hosts. hosts.items ≡ self.now) }
        ensures hosts { AreHosts self.now }
    {
        self.index.copies(alloc)
    }

    // Whether the host may stand last.
    fn may_stand_last(&self, known: &KnownHost) -> bool
        ensures { result ≡ may_stand_last known.now self.now }
    {
        self.index.len() < MOST_HOSTS && self.index.are_before(known.host.as_slice())
    }

    /// Adds a host behind all others, as where a list is read back. It tells whether it was added: exactly where its
    /// bytes come after those of each other host, and fewer than 4,096 are known. Else, and where memory is refused,
    /// the list is as it was.
    pub fn extend(&mut self, known: KnownHost) -> Result<bool, OutOfMemory>
        ensures told { IfOk result (λ added. added ≡ may_stand_last known self.old) }
        ensures ok { OnOk result (self.new ≡ extended known self.old) }
        ensures err { OnErr result (self.new ≡ self.old) }
        ensures hosts { AreHosts self.new }
    {
        if !self.may_stand_last(&known) {
            return Ok(false);
        }
        let term = Term {
            subdomains: known.subdomains,
            until: known.until,
        };
        self.index.put(self.alloc, known.host, term)?;
        Ok(true)
    }

    /// Takes the host out, if it is there. It takes no memory.
    pub fn forget(&mut self, host: &[u8])
        ensures forgotten { self.new ≡ without host.now self.old }
        ensures hosts { AreHosts self.new }
    {
        self.index.take_out(host);
    }

    /// Takes in what a Strict-Transport-Security field of the host says at this time, in seconds.
    /// With age 0 the host is forgotten; else it is known until that time plus the age, in the place
    /// of what was known of it. Where 4,096 other hosts are known, the one whose term ends first
    /// goes; of several whose terms end then, the first by its bytes (profile). Want of memory leaves
    /// the list as it was (RFC 6797, section 8.1).
    pub fn note(&mut self, host: Bytes, sts: Sts, now: u64) -> Result<(), OutOfMemory>
        requires time { now < 2 ^ 48 }
        requires age { sts.age < 2 ^ 48 }
        ensures ok { OnOk result (self.new ≡ noted host sts now self.old) }
        ensures err { OnErr result (self.new ≡ self.old) }
        ensures hosts { AreHosts self.new }
    {
        if sts.age == 0 {
            self.forget(host.as_slice());
            return Ok(());
        }
        let term = Term {
            subdomains: sts.subdomains,
            until: now + sts.age,
        };
        let leaving = leaving_for(self.alloc, &self.index, host.as_slice())?;
        self.index.put(self.alloc, host, term)?;
        if let Some(name) = leaving {
            self.index.take_out(name.as_slice());
        }
        Ok(())
    }
}
