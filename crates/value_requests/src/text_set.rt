// A set of texts, for where many are looked up among many.
ghost use Rattle.std.specs.Prelude.{◌≡◌, ℕ, List, [], ◌||◌, bytes_eq, IfOk, OnErr, OnOk};
ghost use Rattle.std.specs.List.{list_any};
ghost use Rattle.std.specs.Str.{str_to_ascii_lowercase};
ghost use Rattle.value_requests.specs.TextSets.{has_text};

use std::alloc::Global;
use std::collections::BTreeSet;
use std::marker::Model;
use value_bytes::{Bytes, OutOfMemory, in_lower_case};

/// A set of texts, seen as the list of them, for where many are looked up among many.
#[derive(Drop)]
pub struct TextSet {
    texts: BTreeSet<Vec<u8>>,
}

impl Model for TextSet {
    ghost use Rattle.std.specs.Prelude.{ℕ, List, map};

    ghost Value = { List (List ℕ) };

    ghost view = { λ set. map (λ text. text.items) set.texts.keys };
}

impl TextSet {
    /// No texts. It takes no memory.
    pub fn new(alloc: Global) -> TextSet
        ensures { result ≡ [] }
    {
        TextSet {
            texts: BTreeSet::new(alloc),
        }
    }

    /// The texts with their ASCII letters in lower case. The only error is want of memory.
    pub fn in_lower_case(alloc: Global, texts: &[Bytes]) -> Result<TextSet, OutOfMemory>
        ensures { IfOk result (λ set. (text : List ℕ) → has_text set text
            ≡ list_any (λ item. bytes_eq (str_to_ascii_lowercase item) text) texts.now) }
    {
        let mut set = TextSet::new(alloc);
        for text in texts {
            let lower = in_lower_case(alloc, text.as_slice())?;
            set.add(alloc, lower.as_slice())?;
        }
        Ok(set)
    }

    /// Adds a copy of the text, unless it is there. The only error is want of memory, which leaves the set as it was.
    pub fn add(&mut self, alloc: Global, text: &[u8]) -> Result<(), OutOfMemory>
        ensures added { OnOk result ((other : List ℕ) → has_text self.new other
            ≡ (bytes_eq text.now other || has_text self.old other)) }
        ensures err { OnErr result (self.new ≡ self.old) }
    {
        self.texts.insert(Vec::from_slice(alloc, text)?)?;
        Ok(())
    }

    /// Whether the text is there, byte for byte. It takes no memory.
    pub fn has(&self, text: &[u8]) -> bool
        ensures { result ≡ has_text self.now text.now }
    {
        self.texts.contains(text)
    }

    /// Whether the text is there once its ASCII letters are in lower case. The only error is want of memory.
    pub fn has_in_lower_case(&self, alloc: Global, text: &[u8]) -> Result<bool, OutOfMemory>
        ensures { IfOk result (λ has. has ≡ has_text self.now (str_to_ascii_lowercase text.now)) }
    {
        Ok(self.has(in_lower_case(alloc, text)?.as_slice()))
    }
}
