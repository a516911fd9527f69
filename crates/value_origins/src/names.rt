// Domain names: whether one is a localhost name, and its last two labels.
ghost use Rattle.std.specs.Prelude.{◌≡◌, ◌∷◌, [], MatchOption};
ghost use Rattle.value_origins.specs.Names as spec;
ghost use Rattle.value_origins.specs.Private.Cut.{IsCutAtLastDot};

/// The name without one last dot. It takes no memory.
pub fn without_last_dot(name: &[u8]) -> &[u8]
    ensures { result.now ≡ spec.without_last_dot name.now }
{
    name.strip_suffix(b".").unwrap_or(name)
}

// Whether the name is `localhost` or ends in `.localhost`.
fn is_localhost_or_under(name: &[u8]) -> bool
    ensures { result ≡ spec.is_localhost_or_under name.now }
{
    name == b"localhost".as_slice() || name.ends_with(b".localhost")
}

/// Whether a domain is `localhost` or a name under it; one last dot is allowed (Secure Contexts,
/// section 3.1, "is origin potentially trustworthy"). The name is in lower case, as a URL's domain
/// is. It takes no memory.
pub fn is_local_name(host: &[u8]) -> bool
    ensures { result ≡ spec.is_local_name host.now }
{
    is_localhost_or_under(without_last_dot(host))
}

// What is before the last dot of a name and after it, where it has one.
fn cut_at_last_dot(name: &[u8]) -> Option<(&[u8], &[u8])>
    ensures { MatchOption result (spec.labels name.now ≡ name.now ∷ [])
        (λ parts. IsCutAtLastDot name.now parts.0.now parts.1.now) }
{
    let dot = name.iter().rposition(|byte| *byte == b'.')?;
    Some((name.split_at(dot).0, name.split_at(dot + 1).1))
}

// The last two labels of a name with the dot between, or the name where it has fewer.
pub(crate) fn last_two_labels(name: &[u8]) -> &[u8]
    ensures { result.now ≡ spec.last_two_labels name.now }
{
    let Some((front, _)) = cut_at_last_dot(name) else {
        return name;
    };
    match cut_at_last_dot(front) {
        Some((before, _)) => name.split_at(before.len() + 1).1,
        None => name,
    }
}
