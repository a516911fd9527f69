// The line of a verdict.
ghost use Rattle.std.specs.Prelude.{◌≡◌, ◌++◌, codes, decimal, IfOk, OnOk};
ghost use Rattle.program_playaudit.specs.Statuses as spec;

use audit_verdict::Verdict;
use itoa::Buffer;
use std::alloc::Global;
use value_bytes::{Bytes, OutOfMemory};

// Adds a name, a space and a number.
fn add_numbered(line: &mut Bytes, name: &[u8], number: u64) -> Result<(), OutOfMemory>
    ensures { OnOk result (line.new ≡ line.old ++ spec.named name.now (decimal number)) }
{
    line.append(name)?;
    line.append(b" ")?;
    let mut buffer = Buffer::new();
    line.append(buffer.format(number).as_bytes())
}

// Adds the name of a verdict other than `Play`, a space and its value.
fn add_verdict(line: &mut Bytes, verdict: &Verdict) -> Result<(), OutOfMemory>
    ensures { OnOk result (line.new ≡ line.old ++ spec.verdict_text verdict.now) }
{
    match verdict {
        Verdict::Play => Ok(()),
        Verdict::Scenario(place) => {
            line.append(b"Scenario ")?;
            line.append(place.text.as_slice())
        }
        Verdict::History(number) => add_numbered(line, b"History", *number),
        Verdict::Illegal(index) => add_numbered(line, b"Illegal", *index),
        Verdict::Stranger(index) => add_numbered(line, b"Stranger", *index),
        Verdict::Calls(number) => add_numbered(line, b"Calls", u64::from(*number)),
        Verdict::Text(offset) => add_numbered(line, b"Text", *offset),
    }
}

/// The line of a verdict.
pub fn line_of(alloc: Global, verdict: &Verdict) -> Result<Bytes, OutOfMemory>
    ensures { IfOk result (λ line. line ≡ spec.verdict_line verdict.now) }
{
    if matches!(verdict, Verdict::Play) {
        return Bytes::of(alloc, b"play\n");
    }
    let mut line = Bytes::of(alloc, b"not a play: ")?;
    add_verdict(&mut line, verdict)?;
    line.append(b"\n")?;
    Ok(line)
}
