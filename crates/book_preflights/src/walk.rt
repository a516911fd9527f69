// What goes through the keys of the preflight cache: copies of all entries, and which entry may stand last.
ghost use Rattle.std.specs.Prelude.{◌≡◌, ◌<◌, ◌++◌, ◌∷◌, [], not, length, map, IfOk, OnOk, OnErr};
ghost use Rattle.std.specs.List.{list_all};
ghost use Rattle.std.specs.BTreeMap.{IsOrdered};
ghost use Rattle.book_preflights.specs.Keys.{entries_of, keyed, stands_before, with_entries};
ghost use Rattle.book_preflights.specs.Private.Partitions.{key_cmp, listed};

use crate::entry::{CacheEntry, Keyed};
use crate::partition::Partition;
use std::alloc::Global;
use std::collections::BTreeMap;
use value_bytes::{Bytes, OutOfMemory};

// Whether no key comes after this one: the last that has entries does not. Keys without entries that stand behind
// that one go.
pub(crate) fn none_after(partitions: &mut BTreeMap<Vec<u8>, Partition>, key: &[u8]) -> bool
    requires { IsOrdered (key_cmp (λ key. key.items)) partitions.old }
    ensures none { result ≡ list_all (λ k. not (stands_before key.now k.key))
        (listed (λ key. key.items) partitions.old.entries) }
    ensures listed { listed (λ key. key.items) partitions.new.entries
        ≡ listed (λ key. key.items) partitions.old.entries }
    ensures ordered { IsOrdered (key_cmp (λ key. key.items)) partitions.new }
{
    while let Some((last, partition)) = partitions.last_key_value() {
        if !partition.as_slice().is_empty() {
            return last.as_slice().cmp(key).is_le();
        }
        partitions.pop_last();
    }
    true
}

// Adds copies of a key's entries.
fn add_copies(
    alloc: Global,
    entries: &mut Vec<Keyed>,
    key: &[u8],
    partition: &[CacheEntry],
) -> Result<(), OutOfMemory>
    ensures { OnOk result (entries.new.items ≡ entries.old.items ++ map (keyed key.now) partition.now) }
{
    for entry in partition {
        let key = Bytes::of(alloc, key)?;
        let entry = entry.copy(alloc)?;
        entries.push(Keyed { key, entry })?;
    }
    Ok(())
}

// Copies of all entries, in order.
pub(crate) fn copies(
    alloc: Global,
    partitions: &BTreeMap<Vec<u8>, Partition>,
) -> Result<Vec<Keyed>, OutOfMemory>
    ensures { IfOk result (λ entries. entries.items ≡ listed (λ key. key.items) partitions.now.entries) }
{
    let mut entries = Vec::new(alloc);
    for (key, partition) in partitions {
        add_copies(alloc, &mut entries, key.as_slice(), partition.as_slice())?;
    }
    Ok(entries)
}

// Adds an entry to those of its key, which has room.
pub(crate) fn add(
    alloc: Global,
    partitions: &mut BTreeMap<Vec<u8>, Partition>,
    new: Keyed,
) -> Result<(), OutOfMemory>
    requires ordered { IsOrdered (key_cmp (λ key. key.items)) partitions.old }
    requires room { length (entries_of new.key (listed (λ key. key.items) partitions.old.entries)) < 64 }
    ensures ordered { IsOrdered (key_cmp (λ key. key.items)) partitions.new }
    ensures ok { OnOk result (listed (λ key. key.items) partitions.new.entries
        ≡ with_entries new.key (entries_of new.key (listed (λ key. key.items) partitions.old.entries) ++ new.entry ∷ [])
        (listed (λ key. key.items) partitions.old.entries)) }
    ensures err { OnErr result (partitions.new.entries ≡ partitions.old.entries) }
{
    if let Some(partition) = partitions.get_mut(new.key.as_slice()) {
        partition.push(new.entry)?;
        return Ok(());
    }
    let partition = Partition::of_one(alloc, new.entry)?;
    let key = new.key.into_vec()?;
    partitions.insert(key, partition)?;
    Ok(())
}
