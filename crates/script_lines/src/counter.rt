// How many bytes the lines of an event have.
ghost use Rattle.std.specs.Prelude.{◌≡◌, decimal, length};
ghost use Rattle.script_lines.specs.Escapes as escapes;
ghost use Rattle.script_lines.specs.Kept.{plus};
ghost use Rattle.script_lines.specs.Lengths.{capped, event_length};

use crate::escape::escape_count;
use crate::lines::tell_event;
use crate::receiver::Receiver;
use script_events::Event;
use std::convert::Infallible;

// How many digits a number has in decimal.
#[tactic(auto, using(crate::proofs::DigitLemmas::digits_of_none))]
fn digit_count(number: u64) -> u64
    ensures { result ≡ length (decimal number) }
{
    match number.checked_ilog10() {
        None => 1,
        Some(power) => u64::from(power) + 1,
    }
}

// Counts the bytes that it is told, as far as 64 bits tell.
#[derive(Drop)]
struct Counter {
    bytes: u64,
}

impl Counter {
    // Counts some more.
    fn add(&mut self, count: u64)
        ensures { self.new.bytes ≡ plus self.old.bytes count }
    {
        self.bytes = self.bytes.saturating_add(count);
    }
}

impl Receiver for Counter {
    ghost use Rattle.script_lines.specs.Kept.{counted};

    type Refusal = Infallible;

    ghost kept = { λ counter. counted counter.bytes };

    #[tactic(auto, unfolding(crate::specs::Kept::told))]
    fn text(&mut self, text: &[u8]) -> Result<(), Infallible> {
        self.add(text.len() as u64);
        Ok(())
    }

    // Four bytes stand for each one that is not written as it is.
    #[tactic(auto, using(crate::proofs::EscapeLemmas::escaped_len), unfolding(crate::specs::Kept::told))]
    fn escaped(&mut self, text: &[u8]) -> Result<(), Infallible> {
        self.add(text.len() as u64);
        self.add((escape_count(text) as u64).saturating_mul(3));
        Ok(())
    }

    #[tactic(auto, unfolding(crate::specs::Kept::told))]
    fn number(&mut self, number: u64) -> Result<(), Infallible> {
        self.add(digit_count(number));
        Ok(())
    }
}

/// How many bytes the printed lines of an event have, or the greatest `u64` where they have more. It makes
/// no text and takes no memory.
#[tactic(auto, using(crate::proofs::LengthLemmas::of_event), unfolding(crate::specs::Kept::told))]
pub fn event_len(event: &Event) -> u64
    ensures { result ≡ capped (event_length event.now) }
{
    let mut counter = Counter { bytes: 0 };
    match tell_event(&mut counter, event) {
        Ok(()) => counter.bytes,
        Err(never) => match never {},
    }
}
