// The streams of a run of a program's top call. Some of their calls fail, which words with a space between say:
//
//     reads=N         the Nth read fails; likewise `writes=N`, and `complaints=N` for those of complaints
//     zeros=N         the Nth write takes nothing
use link_traits::{MemorySink, MemorySource};
use rows_shell::{Failed, Held, Shown, number, value_of};
use std::alloc::Global;
use value_bytes::Bytes;
use value_text::{after_byte, before_byte};

/// How many bytes the output and the complaints each have room for.
const ROOM: usize = 16_777_216;

/// The streams of a run.
#[derive(Drop)]
pub struct Streams {
    pub input: Held<MemorySource>,
    pub output: Held<MemorySink>,
    pub complaints: Held<MemorySink>,
}

// The numbers of the first word `NAME=N,N`, in order; none where there is no such word.
pub(crate) fn numbers_of(alloc: Global, words: &[u8], name: &[u8]) -> Result<Vec<u64>, Failed> {
    let mut numbers = Vec::new(alloc);
    let mut rest = value_of(words, name);
    for _ in 0..words.len() {
        if rest.is_empty() {
            break;
        }
        numbers.push(number(before_byte(rest, b','), u64::MAX)?)?;
        rest = after_byte(rest, b',');
    }
    Ok(numbers)
}

// A sink of which some calls fail, and others take nothing.
fn sink_of(
    alloc: Global,
    words: &[u8],
    fails: &[u8],
    zeros: &[u8],
) -> Result<Held<MemorySink>, Failed> {
    let fails = numbers_of(alloc, words, fails)?;
    let zeros = numbers_of(alloc, words, zeros)?;
    Ok(Held {
        value: MemorySink::new(alloc, ROOM, fails, zeros)?,
    })
}

// The input, which has a text.
fn input_of(alloc: Global, words: &[u8], text: &[u8]) -> Result<Held<MemorySource>, Failed> {
    let fails = numbers_of(alloc, words, b"reads")?;
    Ok(Held {
        value: MemorySource::new(Bytes::of(alloc, text)?, fails),
    })
}

impl Streams {
    /// The streams of an input, which is a text. The words say which of their calls fail, as this file says. The output
    /// and the complaints each have room for 16,777,216 bytes.
    pub fn of(alloc: Global, words: &[u8], text: &[u8]) -> Result<Streams, Failed> {
        Ok(Streams {
            input: input_of(alloc, words, text)?,
            output: sink_of(alloc, words, b"writes", b"zeros")?,
            complaints: sink_of(alloc, words, b"complaints", b"unused")?,
        })
    }

    /// What was written.
    pub fn output(&self) -> &[u8] {
        self.output.value.taken()
    }

    /// What was complained.
    pub fn complaints(&self) -> &[u8] {
        self.complaints.value.taken()
    }
}

/// Shows the number of a status, in a line of its own.
pub fn show_status(number: u8, shown: &mut Shown) {
    shown.add_count(b"status ", usize::from(number));
    shown.add(b"\n");
}

/// A program's words, which have commas between. An empty one is left out.
pub fn words_of(alloc: Global, text: &[u8]) -> Result<Vec<String>, Failed> {
    let text = text_of(text)?;
    let mut words = Vec::new(alloc);
    for word in text.split(',') {
        if !word.is_empty() {
            words.push(String::from_str(alloc, word)?)?;
        }
    }
    Ok(words)
}

// The text that bytes are, if they are UTF-8.
pub(crate) fn text_of(bytes: &[u8]) -> Result<&str, Failed> {
    match str::from_utf8(bytes) {
        Ok(text) => Ok(text),
        Err(_) => Err(Failed),
    }
}
