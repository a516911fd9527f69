// The form that a value of a JSON tree has to have: the trait, and the place where one is refused.
ghost use Rattle.std.specs.Prelude.{◌≡◌, [], Err, IfOk, decimal};
ghost use Rattle.serde_json.specs.Data.{Data};
ghost use Rattle.value_json.specs.Trees.{data_of};
ghost use Rattle.value_json.specs.Gives.{Gives, IsUnder};
ghost use Rattle.value_json.specs.Reading.{Read, under, below};

use crate::refused::Refused;
use crate::tree::Tree;
use std::alloc::Global;
use value_bytes::{Bytes, OutOfMemory};

/// What a value of a JSON tree (RFC 8259) has to be, and what it is read as.
pub trait Form {
    type Out: Drop;

    /// What the tree gives.
    ghost reads: { Self → Data → Read Self.Out };

    /// Reads the value. One that is not of the form is refused by `At`, with the place of the first
    /// bad part, from the value: empty where it is the value itself, and else with a `/` and then the
    /// segment for each step on the way down. `Memory` tells want of memory alone.
    fn read(&self, alloc: Global, tree: &Tree<'_, '_>) -> Result<Self::Out, Refused>
        ensures { Gives result (reads self.now (data_of tree.now)) };
}

/// Refuses the value that is being read: by `At`, with the empty place.
pub fn refused_here<T>(alloc: Global) -> Result<T, Refused>
    ensures { Gives result (Err []) }
{
    Err(Refused::At(Bytes::new(alloc)))
}

// The place, under a segment.
fn put_under(alloc: Global, segment: &str, place: Bytes) -> Result<Bytes, OutOfMemory>
    ensures { IfOk result (λ text. text ≡ below segment.now place) }
{
    let mut text = Vec::new(alloc);
    text.push(b'/')?;
    text.extend_from_slice(segment.as_bytes())?;
    text.extend_from_slice(place.as_slice())?;
    Ok(Bytes::from_vec(text))
}

/// A refusal, under a segment on the way down, which is a key or a number: the place has `/` and
/// the segment before it. Want of memory stays so, and may come of it.
pub fn refused_under(alloc: Global, segment: &str, refused: Refused) -> Refused
    ensures { IsUnder segment.now refused result }
{
    match refused {
        Refused::Memory => Refused::Memory,
        Refused::At(place) => match put_under(alloc, segment, place) {
            Ok(place) => Refused::At(place),
            Err(_) => Refused::Memory,
        },
    }
}

/// A refusal, under the number of an item of a list, counted from 0: see `refused_under`.
pub fn refused_at(alloc: Global, index: usize, refused: Refused) -> Refused
    ensures { IsUnder (decimal index) refused result }
{
    match index.to_string(alloc) {
        Ok(segment) => refused_under(alloc, segment.as_str(), refused),
        Err(_) => Refused::Memory,
    }
}

/// What was read under a segment: a value stays as it is, and a refusal is put under the segment,
/// as `refused_under` does it.
pub fn at_segment<T: Drop>(
    alloc: Global,
    segment: &str,
    read: Result<T, Refused>,
) -> Result<T, Refused>
    ensures { (expected : Read T) → Gives read expected
        → Gives result (under segment.now expected) }
{
    match read {
        Ok(x) => Ok(x),
        Err(refused) => Err(refused_under(alloc, segment, refused)),
    }
}
