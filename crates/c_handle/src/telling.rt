// Answers, told by a code and in the room that the caller lends.
ghost use Rattle.std.specs.Prelude.{◌≡◌, ◌≢◌, Bool, ℕ, List, Option, Result};
ghost use Rattle.value_text.specs.Texts.{Text};
ghost use Rattle.c_handle.specs.Codes.{code_of, some_text, told, yes_or_no, IsTextTold, IsWritten};
ghost use Rattle.c_rules.specs.Answers.{IsUnlessMemory};

use crate::codes::{
    NO, NO_REQUEST, NOT_A_HEADER, NOT_A_HOST, NOT_A_URL, NOT_HTTP, OK, OUT_OF_MEMORY, TOO_LATE,
    TOO_SHORT,
};
use c_rules::Refusal;
use value_bytes::Bytes;

// The code of a refusal.
pub fn code_of(refusal: Refusal) -> u32
    ensures { result ≡ code_of refusal }
{
    match refusal {
        Refusal::OutOfMemory => OUT_OF_MEMORY,
        Refusal::NotUrl => NOT_A_URL,
        Refusal::NotHttp => NOT_HTTP,
        Refusal::NotHeader => NOT_A_HEADER,
        Refusal::TooLate => TOO_LATE,
        Refusal::NoRequest => NO_REQUEST,
        Refusal::NotHost => NOT_A_HOST,
    }
}

// The code of whether something holds.
pub fn yes_or_no(holds: bool) -> u32
    ensures { result ≡ yes_or_no holds }
{
    if holds { OK } else { NO }
}

// The code that tells whether something holds, or why there is no answer.
pub fn told(answer: Result<bool, Refusal>) -> u32
    ensures code { result ≡ told answer }
    ensures told { (expected : Result Bool Refusal) → IsUnlessMemory answer expected → result ≢ OUT_OF_MEMORY
        → result ≡ told expected }
{
    match answer {
        Ok(holds) => yes_or_no(holds),
        Err(refusal) => code_of(refusal),
    }
}

// Writes a text at the beginning of the room, if it is long enough, and tells how long the text is.
pub fn write(text: &[u8], room: &mut [u8], len: &mut usize) -> u32
    ensures written { IsWritten text.now room.old room.new len.new result }
    ensures bound { result ≢ OUT_OF_MEMORY }
{
    *len = text.len();
    if text.len() > room.len() {
        return TOO_SHORT;
    }
    room[..text.len()].copy_from_slice(text);
    OK
}

// Writes the text that answers, if one does.
pub fn write_answer(answer: Result<Option<Bytes>, Refusal>, room: &mut [u8], len: &mut usize) -> u32
    ensures code { IsTextTold answer room.old room.new len.old len.new result }
    ensures told { (expected : Result (Option Text) Refusal) → IsUnlessMemory answer expected →
        result ≢ OUT_OF_MEMORY →
        IsTextTold expected room.old room.new len.old len.new result }
    ensures out_of_memory { result ≡ OUT_OF_MEMORY → (room.new ≡ room.old) × (len.new ≡ len.old) }
{
    match answer {
        Ok(Some(text)) => write(text.as_slice(), room, len),
        Ok(None) => NO,
        Err(refusal) => code_of(refusal),
    }
}

// Writes the text that answers.
pub fn write_text(answer: Result<Bytes, Refusal>, room: &mut [u8], len: &mut usize) -> u32
    ensures code { IsTextTold (some_text answer) room.old room.new len.old len.new result }
    ensures told { (expected : Result Text Refusal) → IsUnlessMemory answer expected → result ≢ OUT_OF_MEMORY →
        IsTextTold (some_text expected) room.old room.new len.old len.new result }
    ensures out_of_memory { result ≡ OUT_OF_MEMORY → (room.new ≡ room.old) × (len.new ≡ len.old) }
{
    match answer {
        Ok(text) => write(text.as_slice(), room, len),
        Err(refusal) => code_of(refusal),
    }
}
