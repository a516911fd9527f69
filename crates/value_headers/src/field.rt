// A header as lists keep it: its name and its value in one text.
ghost use Rattle.std.specs.Prelude.{◌≡◌, ◌≤◌, ◌++◌, IfOk, drop, length, take};
ghost use Rattle.value_headers.specs.declared.headers.Header.{Header};

use std::alloc::Global;
use std::marker::Model;
use value_bytes::{Bytes, OutOfMemory};

/// A header as a list keeps it, seen as the header: its name and its value are one text, so that both of a short one
/// are in the field itself.
#[derive(Drop)]
pub struct Field {
    // The name and the value, one behind the other.
    text: Bytes,
    // How many bytes the name has.
    named: usize,
}

impl Model for Field {
    ghost use Rattle.std.specs.Prelude.{length, take, drop, ◌≤◌};
    ghost use Rattle.value_headers.specs.declared.headers.Header.{Header};

    ghost Value = { Header };

    ghost view = { λ field. record { name = take field.named field.text; value = drop field.named field.text } };

    ghost invariant = { λ field. field.named ≤ length field.text };
}

// Requests and answers are kept with all their headers, so the size of one matters.
const _: () = prove!(size_of::<Field>() == 56);

impl Field {
    /// A header of this name and this value.
    pub fn of(alloc: Global, name: &[u8], value: &[u8]) -> Result<Field, OutOfMemory>
        ensures { IfOk result (λ field. field ≡ record { name = name.now; value = value.now }) }
    {
        Ok(Field {
            text: Bytes::joined(alloc, name, value)?,
            named: name.len(),
        })
    }

    /// A header of the name that is at the front of a text, so many bytes of it, and the value behind.
    pub(crate) fn of_both(alloc: Global, both: &[u8], named: usize) -> Result<Field, OutOfMemory>
        requires { named ≤ length both.now }
        ensures { IfOk result (λ field. field
            ≡ record { name = take named both.now; value = drop named both.now }) }
    {
        Ok(Field {
            text: Bytes::of(alloc, both)?,
            named,
        })
    }

    /// The name and the value, one behind the other, and how many bytes the name has.
    pub(crate) fn both(&self) -> (&[u8], usize)
        ensures both { result.0.now ≡ self.now.name ++ self.now.value }
        ensures named { result.1 ≡ length self.now.name }
    {
        (self.text.as_slice(), self.named)
    }

    /// The name, as it is spelled.
    pub fn name(&self) -> &[u8]
        ensures { result.now ≡ self.now.name }
    {
        &self.text.as_slice()[..self.named]
    }

    /// The value.
    pub fn value(&self) -> &[u8]
        ensures { result.now ≡ self.now.value }
    {
        &self.text.as_slice()[self.named..]
    }

    /// An equal header.
    pub fn copy(&self, alloc: Global) -> Result<Field, OutOfMemory>
        ensures { IfOk result (λ field. field ≡ self.now) }
    {
        Ok(Field {
            text: self.text.copy(alloc)?,
            named: self.named,
        })
    }
}
