// Events and calls of the shared book as they are told to a page, and numbers on it.
#![tactic(auto, unfolding(script_lines::specs::Kept::told))]

ghost use Rattle.std.specs.Prelude.{◌≡◌, ◌++◌, OnOk};
ghost use Rattle.script_lines.specs.Calls.{call_text};
ghost use Rattle.script_lines.specs.Lines.{event_text};

use crate::escape::add_escaped;
use crate::page::Page;
use book_calls::{Op, Reply};
use itoa::{Buffer, Integer};
use script_events::Event;
use script_lines::{Receiver, tell_call, tell_event};
use value_bytes::OutOfMemory;

/// Adds a number in decimal to a text. Where memory is refused the text is any.
pub fn add_number<I: Integer>(text: &mut Page, number: I) -> Result<(), OutOfMemory>
    ensures { OnOk result (text.new ≡ text.old ++ I.text number) }
{
    let mut buffer = Buffer::new();
    text.append(buffer.format(number).as_bytes())
}

impl Receiver for Page {
    ghost use Rattle.script_lines.specs.Kept.{whole};

    type Refusal = OutOfMemory;

    ghost kept = { λ page. whole page };

    fn text(&mut self, text: &[u8]) -> Result<(), OutOfMemory> {
        self.append(text)
    }

    fn escaped(&mut self, text: &[u8]) -> Result<(), OutOfMemory> {
        add_escaped(self, text)
    }

    fn number(&mut self, number: u64) -> Result<(), OutOfMemory> {
        add_number(self, number)
    }
}

/// Adds the lines of an event to a text. Where memory is refused the text is any.
pub fn add_event(text: &mut Page, event: &Event) -> Result<(), OutOfMemory>
    ensures { OnOk result (text.new ≡ text.old ++ event_text event.now) }
{
    tell_event(text, event)
}

// Adds an operation, and what it replied.
pub(crate) fn add_call(text: &mut Page, op: &Op, reply: Reply) -> Result<(), OutOfMemory>
    ensures { OnOk result (text.new ≡ text.old ++ call_text op.now reply) }
{
    tell_call(text, op, reply)
}
