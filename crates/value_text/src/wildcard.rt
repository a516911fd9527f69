// `*` as a method or a header name, and the name that it does not cover (Fetch, section 2.2.2).
ghost use Rattle.std.specs.Prelude.{◌≡◌};
ghost use Rattle.value_text.specs.Wildcards as spec;

use crate::fold::eq_fold;

/// The header name that `*` in a list of names does not cover ("CORS non-wildcard request-header
/// name", Fetch, section 2.2.2), in lower case.
pub const AUTHORIZATION: &[u8] = b"authorization";

/// Whether the text is `*`. It takes no memory.
pub fn is_wildcard(text: &[u8]) -> bool
    ensures { result ≡ spec.is_wildcard text.now }
{
    text == b"*".as_slice()
}

/// Whether the header name is the one that `*` does not cover, ASCII case aside. It takes no
/// memory.
pub fn is_non_wildcard_name(name: &[u8]) -> bool
    ensures { result ≡ spec.is_non_wildcard_name name.now }
{
    eq_fold(name, AUTHORIZATION)
}
