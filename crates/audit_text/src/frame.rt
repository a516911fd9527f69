// The input of an audit, cut into the scenario and the printed play.
ghost use Rattle.std.specs.Prelude.{ℕ, List, MatchOption};
ghost use Rattle.value_text.specs.Texts.{Text};
ghost use Rattle.audit_text.specs.Frames.{IsFramed};

use crate::history::cut;
use value_decimal::number_up_to;

/// The longest scenario of an audit, in bytes.
pub const MOST_SCENARIO: u64 = 4_194_304;

/// The scenario and the play of an audit's input. `None` exactly where the input is not the length of a scenario of at
/// most 4,194,304 bytes in decimal, an LF, the scenario and the play.
pub fn framed(input: &[u8]) -> Option<(&[u8], &[u8])>
    ensures { MatchOption result ((scenario play : Text) → ¬ (IsFramed input.now scenario play))
        (λ parts. IsFramed input.now parts.0.now parts.1.now) }
{
    let (number, rest) = cut(input)?;
    let length = number_up_to(MOST_SCENARIO, number)? as usize;
    if rest.len() < length {
        return None;
    }
    Some(rest.split_at(length))
}
