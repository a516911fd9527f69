// Counts the policies of a header value, so that it may be refused before any is kept.
ghost use Rattle.std.specs.Prelude.{◌≡◌, Bool, true, length};
ghost use Rattle.std.specs.Option.{is_some};
ghost use Rattle.policy_csp_text.specs.Policies as spec;

use crate::parse::are_ascii;
use crate::word_list::first_word;

// Whether a token is a directive.
fn is_directive(token: &[u8]) -> bool
    ensures { result ≡ is_some (spec.directive_of token.now) }
{
    are_ascii(token) && first_word(token).is_some()
}

// Whether the text of a policy has a directive.
fn has_directive(text: &[u8]) -> bool
    ensures { result ≡ spec.has_directives (spec.policy_of true text.now) }
{
    text.split(|byte| *byte == b';')
        .any(|token| is_directive(token))
}

/// How many policies the value of a header has: as many as `parse_policies` gives. It takes no memory, so a value may
/// be refused for its policies before they are kept.
pub fn count_policies(value: &[u8]) -> usize
    ensures { (enforced : Bool) → result ≡ length (spec.policies_of enforced value.now) }
{
    value
        .split(|byte| *byte == b',')
        .filter(|text| has_directive(text))
        .count()
}
