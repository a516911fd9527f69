// "convert header names to a sorted-lowercase set" (Fetch, section 2.2.2).
ghost use Rattle.std.specs.Prelude.{◌≡◌, ℕ, List, map, bytes_eq, IfOk};
ghost use Rattle.std.specs.List.{list_any};
ghost use Rattle.std.specs.List.Sorted.{IsStrictlySortedBy};
ghost use Rattle.value_text.specs.Texts.{Text};
ghost use Rattle.value_text.specs.Orders.{text_cmp};

use std::alloc::Global;
use value_bytes::{Bytes, BytesList, OutOfMemory};

// Puts the texts in ascending order of their bytes, each once.
pub(crate) fn sort_and_dedup(texts: &mut Vec<Vec<u8>>)
    ensures ascending { IsStrictlySortedBy text_cmp (map (λ text. text.items) texts.new.items) }
    ensures members { (query : Text) → list_any (bytes_eq query) (map (λ text. text.items) texts.new.items)
        ≡ list_any (bytes_eq query) (map (λ text. text.items) texts.old.items) }
{
    texts.sort_unstable();
    texts.dedup();
}

// The texts as a list. They are not copied.
pub(crate) fn listed(alloc: Global, texts: Vec<Vec<u8>>) -> Result<BytesList, OutOfMemory>
    ensures { IfOk result (λ list. list ≡ map (λ text. text.items) texts.items) }
{
    let mut list = BytesList::new(alloc);
    for text in texts {
        list.push(Bytes::from_vec(text))?;
    }
    Ok(list)
}
