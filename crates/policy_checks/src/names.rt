// Whether a header has one of some names.
ghost use Rattle.std.specs.Prelude.{◌≡◌, map};
ghost use Rattle.policy_checks.specs.PermittedNames as spec;

use value_headers::Field;
use value_text::is_among_fold;

/// Whether the header has one of these names, ASCII case aside. It takes no memory.
pub fn has_name_among(names: &[&[u8]], header: &Field) -> bool
    ensures { result ≡ spec.has_name_among (map (λ name. name.now) names.now) header.now }
{
    is_among_fold(names, header.name())
}
