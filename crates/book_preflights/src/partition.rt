// The entries of one network partition key, and what they cover.
ghost use Rattle.std.specs.Prelude.{◌≡◌, ◌<◌, ◌≤◌, ◌++◌, ◌∷◌, [], length, map, filter, not, IfOk, OnOk, OnErr};
ghost use Rattle.std.specs.List.{fold, list_all, list_any};
ghost use Rattle.book_preflights.specs.Entries.{covered, has_match, has_method_match, is_alive, is_of};
ghost use Rattle.book_preflights.specs.Teaching.{taught};
ghost use Rattle.book_preflights.specs.declared.entry.Allowed.{Allowed};
ghost use Rattle.book_preflights.specs.declared.entry.Allowed.TheVariants.{Method, HeaderName};

use crate::entry::{Allowed, CacheEntry};
use crate::lessons::taught;
use crate::question::{Lesson, Question};
use std::alloc::Global;
use std::marker::Model;
use value_bytes::OutOfMemory;

/// How many entries a key holds at most.
pub(crate) const MOST: usize = 64;

/// The entries of one network partition key, in the order of their creation.
#[derive(Drop)]
pub(crate) struct Partition {
    entries: Vec<CacheEntry>,
}

impl Model for Partition {
    ghost use Rattle.std.specs.Prelude.{◌≤◌, List, length};
    ghost use Rattle.book_preflights.specs.declared.entry.CacheEntry.{CacheEntry};

    ghost Value = { List CacheEntry };

    ghost view = { λ partition. partition.entries.items };

    ghost invariant = { λ partition. length partition.entries.items ≤ 64 };
}

// Whether an entry matches the method.
fn has_method(entries: &[CacheEntry], question: &Question, method: &[u8], now: u64) -> bool
    ensures { result ≡ has_match question.now now entries.now (Method method.now) }
{
    entries.iter().any(|entry| {
        entry.is_alive(now)
            && entry.is_entry_match(
                question.origin.as_slice(),
                question.url.as_slice(),
                question.include,
            )
            && entry.allowed.allows_method(method)
    })
}

// Whether an entry matches the header name.
fn has_name(entries: &[CacheEntry], question: &Question, name: &[u8], now: u64) -> bool
    ensures { result ≡ has_match question.now now entries.now (HeaderName name.now) }
{
    entries.iter().any(|entry| {
        entry.is_alive(now)
            && entry.is_entry_match(
                question.origin.as_slice(),
                question.url.as_slice(),
                question.include,
            )
            && entry.allowed.allows_name(name)
    })
}

// Whether the method is matched, where the question has one.
fn covers_method(entries: &[CacheEntry], question: &Question, now: u64) -> bool
    ensures { result ≡ has_method_match question.now now entries.now question.now.method }
{
    match &question.method {
        Some(method) => has_method(entries, question, method.as_slice(), now),
        None => true,
    }
}

// Whether each header name is matched.
fn covers_names(entries: &[CacheEntry], question: &Question, now: u64) -> bool
    ensures { result ≡ list_all (λ name. has_match question.now now entries.now (HeaderName name)) question.now.names }
{
    for index in 0..question.names.len() {
        if !has_name(entries, question, question.names.at(index), now) {
            return false;
        }
    }
    true
}

// Whether the method, if given, and each header name are matched by an entry that is alive.
pub(crate) fn covers(entries: &[CacheEntry], question: &Question, now: u64) -> bool
    ensures { result ≡ covered question.now now entries.now }
{
    covers_method(entries, question, now) && covers_names(entries, question, now)
}

// Whether the entry is of the origin and the URL.
pub(crate) fn is_of(entry: &CacheEntry, origin: &[u8], url: &[u8]) -> bool
    ensures { result ≡ is_of origin.now url.now entry.now }
{
    entry.origin.as_slice() == origin && entry.url.as_slice() == url
}

// Takes out the entries of the origin and the URL.
fn clear_in(entries: &mut Vec<CacheEntry>, origin: &[u8], url: &[u8])
    ensures items { entries.new.items ≡ filter (λ entry. not (is_of origin.now url.now entry)) entries.old.items }
    ensures len { length entries.new.items ≤ length entries.old.items }
{
    entries.retain(|entry| !is_of(entry, origin, url));
}

impl Partition {
    // The entries, in the order of their creation.
    pub(crate) fn as_slice(&self) -> &[CacheEntry]
        ensures entries { result.now ≡ self.now }
        ensures most { length result.now ≤ 64 }
    {
        self.entries.as_slice()
    }

    // Copies of the entries that are alive, with what the lesson teaches.
    pub(crate) fn taught(
        alloc: Global,
        entries: &[CacheEntry],
        lesson: &Lesson,
        now: u64,
    ) -> Result<Partition, OutOfMemory>
        requires { length entries.now ≤ 64 }
        ensures { IfOk result (λ partition. partition ≡ taught lesson.now now entries.now) }
    {
        let entries = taught(alloc, entries, lesson, now)?;
        Ok(Partition { entries })
    }

    // One entry.
    pub(crate) fn of_one(alloc: Global, entry: CacheEntry) -> Result<Partition, OutOfMemory>
        ensures { IfOk result (λ partition. partition ≡ entry ∷ []) }
    {
        let mut entries = Vec::new(alloc);
        entries.push(entry)?;
        Ok(Partition { entries })
    }

    // Adds an entry where there is room.
    pub(crate) fn push(&mut self, entry: CacheEntry) -> Result<(), OutOfMemory>
        requires { length self.old < 64 }
        ensures ok { OnOk result (self.new ≡ self.old ++ entry ∷ []) }
        ensures err { OnErr result (self.new ≡ self.old) }
    {
        self.entries.push(entry)?;
        Ok(())
    }

    // Takes out the entries of the origin and the URL.
    pub(crate) fn clear(&mut self, origin: &[u8], url: &[u8])
        ensures { self.new ≡ filter (λ entry. not (is_of origin.now url.now entry)) self.old }
    {
        clear_in(&mut self.entries, origin, url);
    }
}
