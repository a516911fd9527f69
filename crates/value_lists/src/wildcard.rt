// `*` in a list of methods or header names (Fetch, section 2.2.2).
ghost use Rattle.std.specs.Prelude.{◌≡◌};
ghost use Rattle.value_text.specs.Wildcards.{has_wildcard};

use value_bytes::{Bytes, has_text};

/// Whether the list has `*`. It takes no memory.
pub fn has_wildcard(texts: &[Bytes]) -> bool
    ensures { result ≡ has_wildcard texts.now }
{
    has_text(texts, b"*")
}
