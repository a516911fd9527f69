// Copies in lower and in upper case.
ghost use Rattle.std.specs.Prelude.{◌≡◌, IfOk};
ghost use Rattle.std.specs.Str.{str_to_ascii_lowercase, str_to_ascii_uppercase};

use crate::bytes::Bytes;
use crate::memory::OutOfMemory;
use std::alloc::Global;

/// A copy of the text with its ASCII letters in lower case.
pub fn in_lower_case(alloc: Global, text: &[u8]) -> Result<Bytes, OutOfMemory>
    ensures { IfOk result (λ lower. lower ≡ str_to_ascii_lowercase text.now) }
{
    let mut lower = Vec::from_slice(alloc, text)?;
    lower.as_mut_slice().make_ascii_lowercase();
    Ok(Bytes::from_vec(lower))
}

/// A copy of the text with its ASCII letters in upper case.
pub fn in_upper_case(alloc: Global, text: &[u8]) -> Result<Bytes, OutOfMemory>
    ensures { IfOk result (λ upper. upper ≡ str_to_ascii_uppercase text.now) }
{
    let mut upper = Vec::from_slice(alloc, text)?;
    upper.as_mut_slice().make_ascii_uppercase();
    Ok(Bytes::from_vec(upper))
}
