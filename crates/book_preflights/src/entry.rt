// Cache entries: what a server allows an origin, and for how long (Fetch, "cache entry").
ghost use Rattle.std.specs.Prelude.{◌≡◌, ◌+◌, nat_lt, IfOk};
ghost use Rattle.std.specs.Str.{bytes_eq};
ghost use Rattle.book_preflights.specs.Entries.{allows, allows_method, allows_name, is_alive, is_entry_match};

use std::alloc::Global;
use value_bytes::{Bytes, OutOfMemory};
use value_text::{eq_fold, is_non_wildcard_name, is_wildcard};

/// What one entry allows: a method or a header name. Either may be `*`.
#[derive(Drop)]
pub enum Allowed {
    Method(Bytes),
    HeaderName(Bytes),
}

/// One thing that a server allows to an origin for a URL (Fetch, "cache entry").
#[derive(Drop)]
pub struct CacheEntry {
    /// The serialised origin of the request.
    pub origin: Bytes,
    pub url: Bytes,
    /// Whether the request's credentials mode was include.
    pub include: bool,
    /// When it was learnt last, in seconds.
    pub made: u64,
    /// For how long it holds from then on, in seconds.
    pub age: u64,
    pub allowed: Allowed,
}

/// An entry, and the network partition key that it is kept under.
#[derive(Drop)]
pub struct Keyed {
    pub key: Bytes,
    pub entry: CacheEntry,
}

impl Allowed {
    // Whether this is the method or the wildcard.
    pub(crate) fn allows_method(&self, method: &[u8]) -> bool
        ensures { result ≡ allows_method method.now self.now }
    {
        match self {
            Allowed::Method(allowed) => {
                allowed.as_slice() == method || is_wildcard(allowed.as_slice())
            }
            Allowed::HeaderName(_) => false,
        }
    }

    // Whether this is the header name, ASCII case aside, or the wildcard where that covers the name.
    pub(crate) fn allows_name(&self, name: &[u8]) -> bool
        ensures { result ≡ allows_name name.now self.now }
    {
        match self {
            Allowed::Method(_) => false,
            Allowed::HeaderName(allowed) => {
                eq_fold(allowed.as_slice(), name)
                    || is_wildcard(allowed.as_slice()) && !is_non_wildcard_name(name)
            }
        }
    }

    // Whether this allows the method or the header name.
    pub(crate) fn allows(&self, wanted: &Allowed) -> bool
        ensures { result ≡ allows wanted.now self.now }
    {
        match wanted {
            Allowed::Method(method) => self.allows_method(method.as_slice()),
            Allowed::HeaderName(name) => self.allows_name(name.as_slice()),
        }
    }

    pub(crate) fn copy(&self, alloc: Global) -> Result<Allowed, OutOfMemory>
        ensures { IfOk result (λ allowed. allowed ≡ self.now) }
    {
        match self {
            Allowed::Method(method) => Ok(Allowed::Method(method.copy(alloc)?)),
            Allowed::HeaderName(name) => Ok(Allowed::HeaderName(name.copy(alloc)?)),
        }
    }
}

// Whether what was made then is younger than its age now.
pub(crate) fn is_younger(made: u64, age: u64, now: u64) -> bool
    ensures { result ≡ nat_lt now (made + age) }
{
    now < made || now - made < age
}

impl CacheEntry {
    // Whether the entry is younger than its age.
    pub(crate) fn is_alive(&self, now: u64) -> bool
        ensures { result ≡ is_alive now self.now }
    {
        is_younger(self.made, self.age, now)
    }

    // "cache entry match", the key aside.
    pub(crate) fn is_entry_match(&self, origin: &[u8], url: &[u8], include: bool) -> bool
        ensures { result ≡ is_entry_match origin.now url.now include self.now }
    {
        self.origin.as_slice() == origin && self.url.as_slice() == url && (!include || self.include)
    }

    pub(crate) fn copy(&self, alloc: Global) -> Result<CacheEntry, OutOfMemory>
        ensures { IfOk result (λ entry. entry ≡ self.now) }
    {
        let origin = self.origin.copy(alloc)?;
        let url = self.url.copy(alloc)?;
        let allowed = self.allowed.copy(alloc)?;
        Ok(CacheEntry {
            origin,
            url,
            include: self.include,
            made: self.made,
            age: self.age,
            allowed,
        })
    }
}
