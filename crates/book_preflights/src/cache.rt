// The CORS-preflight cache of all keys: it is asked, learns, and is cleared (Fetch, "CORS-preflight cache").
ghost use Rattle.std.specs.Prelude.{◌≡◌, ◌≤◌, [], length, IfOk, OnOk, OnErr};
ghost use Rattle.std.specs.BTreeMap.{IsOrdered};
ghost use Rattle.book_preflights.specs.Cache.{cleared, covers, learned};
ghost use Rattle.book_preflights.specs.Keys.{IsCache, entries_of, extended, may_stand_last, with_entries};
ghost use Rattle.book_preflights.specs.Private.Partitions.{key_cmp, listed};

use crate::entry::{CacheEntry, Keyed};
use crate::partition::{MOST, Partition, covers};
use crate::question::{Lesson, Question};
use crate::walk::{add, copies, none_after};
use std::alloc::Global;
use std::collections::BTreeMap;
use std::marker::Model;
use value_bytes::OutOfMemory;

/// The CORS-preflight cache, seen as the list of all its entries: sorted by the bytes of their keys,
/// those of one key in the order of their creation (Fetch, "CORS-preflight cache").
#[derive(Drop)]
pub struct Precache {
    alloc: Global,
    partitions: BTreeMap<Vec<u8>, Partition>,
}

impl Model for Precache {
    ghost use Rattle.std.specs.Prelude.{List};
    ghost use Rattle.std.specs.BTreeMap.{IsOrdered};
    ghost use Rattle.book_preflights.specs.Keys.{IsCache, Keyed};
    ghost use Rattle.book_preflights.specs.Private.Partitions.{key_cmp, listed};

    ghost Value = { List Keyed };

    ghost view = { λ cache. listed (λ key. key.items) cache.partitions.entries };

    ghost invariant = { λ cache. IsOrdered (key_cmp (λ key. key.items)) cache.partitions
        × IsCache (listed (λ key. key.items) cache.partitions.entries) };
}

// The entries of a key.
fn entries_of<'a>(partitions: &'a BTreeMap<Vec<u8>, Partition>, key: &[u8]) -> &'a [CacheEntry]
    requires { IsOrdered (key_cmp (λ key. key.items)) partitions.now }
    ensures entries { result.now ≡ entries_of key.now (listed (λ key. key.items) partitions.now.entries) }
    ensures most { length result.now ≤ 64 }
{
    match partitions.get(key) {
        Some(partition) => partition.as_slice(),
        None => &[],
    }
}

// Puts these in the place of the entries of a key. No key is kept without entries.
fn put(
    alloc: Global,
    partitions: &mut BTreeMap<Vec<u8>, Partition>,
    key: &[u8],
    partition: Partition,
) -> Result<(), OutOfMemory>
    requires { IsOrdered (key_cmp (λ key. key.items)) partitions.old }
    ensures ordered { IsOrdered (key_cmp (λ key. key.items)) partitions.new }
    ensures ok { OnOk result (listed (λ key. key.items) partitions.new.entries
        ≡ with_entries key.now partition (listed (λ key. key.items) partitions.old.entries)) }
    ensures err { OnErr result (partitions.new.entries ≡ partitions.old.entries) }
{
    if partition.as_slice().is_empty() {
        partitions.remove(key);
        return Ok(());
    }
    let key = Vec::from_slice(alloc, key)?;
    partitions.insert(key, partition)?;
    Ok(())
}

// Takes out the entries of a key, an origin and a URL.
fn clear_in(partitions: &mut BTreeMap<Vec<u8>, Partition>, key: &[u8], origin: &[u8], url: &[u8])
    requires { IsOrdered (key_cmp (λ key. key.items)) partitions.old }
    ensures ordered { IsOrdered (key_cmp (λ key. key.items)) partitions.new }
    ensures cleared { listed (λ key. key.items) partitions.new.entries
        ≡ cleared key.now origin.now url.now (listed (λ key. key.items) partitions.old.entries) }
{
    if let Some(partition) = partitions.get_mut(key) {
        partition.clear(origin, url);
    }
}

// Takes out a key that has no entries.
fn drop_empty(partitions: &mut BTreeMap<Vec<u8>, Partition>, key: &[u8])
    requires { IsOrdered (key_cmp (λ key. key.items)) partitions.old }
    ensures ordered { IsOrdered (key_cmp (λ key. key.items)) partitions.new }
    ensures listed { listed (λ key. key.items) partitions.new.entries
        ≡ listed (λ key. key.items) partitions.old.entries }
{
    if entries_of(partitions, key).is_empty() {
        partitions.remove(key);
    }
}

// Whether the entry may stand last.
fn may_stand_last(partitions: &mut BTreeMap<Vec<u8>, Partition>, new: &Keyed) -> bool
    requires { IsOrdered (key_cmp (λ key. key.items)) partitions.old }
    ensures may { result ≡ may_stand_last new.now (listed (λ key. key.items) partitions.old.entries) }
    ensures listed { listed (λ key. key.items) partitions.new.entries
        ≡ listed (λ key. key.items) partitions.old.entries }
    ensures ordered { IsOrdered (key_cmp (λ key. key.items)) partitions.new }
{
    let key = new.key.as_slice();
    entries_of(partitions, key).len() < MOST && none_after(partitions, key)
}

impl Precache {
    /// The empty cache. It takes no memory.
    pub fn new(alloc: Global) -> Precache
        ensures empty { result ≡ [] }
        ensures cache { IsCache result }
    {
        Precache {
            alloc,
            partitions: BTreeMap::new(alloc),
        }
    }

    /// The entries of a key, in the order of their creation. It takes no memory.
    pub fn entries_of(&self, key: &[u8]) -> &[CacheEntry]
        ensures entries { result.now ≡ entries_of key.now self.now }
        ensures cache { IsCache self.now }
    {
        entries_of(&self.partitions, key)
    }

    /// Whether the method, if the question has one, and each of its header names are matched by an
    /// entry that is alive now, in seconds. It takes no memory.
    pub fn covers(&self, question: &Question, now: u64) -> bool
        ensures covers { result ≡ covers question.now now self.now }
        ensures cache { IsCache self.now }
    {
        covers(
            entries_of(&self.partitions, question.key.as_slice()),
            question,
            now,
        )
    }

    /// Learns what a CORS-preflight fetch taught, now, in seconds: the dead entries of its key go.
    /// Then for each method and each header name, in order, all entries that are alive and match get
    /// the lesson's age, counted from now; where there are none, a new entry is added. A key's oldest
    /// entry goes where the key would hold 65.
    pub fn learn(&mut self, lesson: &Lesson, now: u64) -> Result<(), OutOfMemory>
        ensures ok { OnOk result (self.new ≡ learned lesson.now now self.old) }
        ensures err { OnErr result (self.new ≡ self.old) }
        ensures cache { IsCache self.new }
    {
        let entries = entries_of(&self.partitions, lesson.key.as_slice());
        let partition = Partition::taught(self.alloc, entries, lesson, now)?;
        put(
            self.alloc,
            &mut self.partitions,
            lesson.key.as_slice(),
            partition,
        )
    }

    /// Copies of all entries, in the order of their keys' bytes, those of one key in the order of their creation.
    pub fn copies(&self, alloc: Global) -> Result<Vec<Keyed>, OutOfMemory>
        ensures copies { IfOk result (λ entries. entries.items ≡ self.now) }
        ensures cache { IsCache self.now }
    {
        copies(alloc, &self.partitions)
    }

    /// Adds an entry behind all others, as where a cache is read back. It tells whether it was added: exactly where no
    /// other key comes after its own, and its key has fewer than 64 entries. Else, and where memory is refused, the
    /// cache is as it was.
    pub fn extend(&mut self, new: Keyed) -> Result<bool, OutOfMemory>
        ensures told { IfOk result (λ added. added ≡ may_stand_last new self.old) }
        ensures ok { OnOk result (self.new ≡ extended new self.old) }
        ensures err { OnErr result (self.new ≡ self.old) }
        ensures cache { IsCache self.new }
    {
        if !may_stand_last(&mut self.partitions, &new) {
            return Ok(false);
        }
        add(self.alloc, &mut self.partitions, new)?;
        Ok(true)
    }

    /// "clear cache entries": takes out the entries of a key, an origin and a URL. It takes no memory.
    pub fn clear(&mut self, key: &[u8], origin: &[u8], url: &[u8])
        ensures cleared { self.new ≡ cleared key.now origin.now url.now self.old }
        ensures cache { IsCache self.new }
    {
        clear_in(&mut self.partitions, key, origin, url);
        drop_empty(&mut self.partitions, key);
    }
}
