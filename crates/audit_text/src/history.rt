// The history in the printed text of a play, read back line by line.
ghost use Rattle.std.specs.Prelude.{◌≡◌, ◌≢◌, ◌++◌, ℕ, List, IfOk, MatchBool, MatchOption};
ghost use Rattle.value_text.specs.Texts.{Text};
ghost use Rattle.script_lines.specs.Lines.{line};
ghost use Rattle.play_text.specs.Plain.{IsLine};
ghost use Rattle.audit_text.specs.Histories.{IsRead, heading};
ghost use Rattle.audit_text.specs.Private.Cuts as spec;

use crate::entry::read_entry;
use book_calls::History;
use std::alloc::Global;
use value_bytes::OutOfMemory;
use value_text::position_of;

// The last line of a play.
const DONE: &[u8] = b"done\n";

/// What the printed text of a play is read as: the entries of its history, or the number of the first line after
/// `history` that is no entry's, counted from 1; 0 where the text has no history.
#[derive(Drop)]
pub enum Reading {
    Entries(History),
    Fault(u64),
}

// The first line of a text and what follows it, where it has an LF.
pub(crate) fn cut(text: &[u8]) -> Option<(&[u8], &[u8])>
    ensures { MatchOption result (IsLine text.now) (λ parts. spec.IsCut text.now parts.0.now parts.1.now) }
{
    let end = position_of(text, b'\n')?;
    Some((text.split_at(end).0, text.split_at(end + 1).1))
}

// Whether the line is the one before the history.
fn is_heading(text: &[u8]) -> bool
    ensures { MatchBool result (text.now ≡ heading) (text.now ≢ heading) }
{
    text == b"history".as_slice()
}

// What follows the first line `history`, where there is one.
fn after_heading(play: &[u8]) -> Option<&[u8]>
    ensures { MatchOption result (spec.LacksHeading play.now)
        (λ rest. spec.Passes play.now (line heading ++ rest.now)) }
{
    let mut rest = play;
    while let Some((first, after)) = cut(rest) {
        if is_heading(first) {
            return Some(after);
        }
        rest = after;
    }
    None
}

// Whether the text is lines: it is empty or ends in an LF.
fn are_lines(text: &[u8]) -> bool
    ensures { MatchBool result (spec.AreLines text.now) (¬ (spec.AreLines text.now)) }
{
    text.is_empty() || text[text.len() - 1] == b'\n'
}

// The lines before `done`, where that is the last line.
fn before_done(text: &[u8]) -> Option<&[u8]>
    ensures { MatchOption result ((front : Text) → ¬ (spec.IsDone text.now front))
        (λ front. spec.IsDone text.now front.now) }
{
    if text.len() < DONE.len() {
        return None;
    }
    let (front, end) = text.split_at(text.len() - DONE.len());
    if end == DONE && are_lines(front) {
        Some(front)
    } else {
        None
    }
}

// What lines are read as, as far as they are read.
fn read_lines(alloc: Global, text: &[u8]) -> Result<Reading, OutOfMemory>
    requires { spec.AreLines text.now }
    ensures { IfOk result (spec.IsReadLines text.now) }
{
    let mut history = History::new(alloc);
    let mut number = 0u64;
    let mut rest = text;
    while let Some((first, after)) = cut(rest) {
        number += 1;
        let Some(entry) = read_entry(alloc, first)? else {
            return Ok(Reading::Fault(number));
        };
        history.push(entry)?;
        rest = after;
    }
    Ok(Reading::Entries(history))
}

/// The entries that the printed text of a play has in its history, each on its line, in order. A fault exactly where
/// the text has no line `history` or does not end in a line `done`, or where a line between the two is that of no
/// entry, of which the first is told.
pub fn read_history(alloc: Global, play: &[u8]) -> Result<Reading, OutOfMemory>
    ensures { IfOk result (IsRead play.now) }
{
    let Some(rest) = after_heading(play) else {
        return Ok(Reading::Fault(0));
    };
    let Some(lines) = before_done(rest) else {
        return Ok(Reading::Fault(0));
    };
    read_lines(alloc, lines)
}
