// The preflight cache: how long a question takes beside many keys.
use crate::lessons::{lesson, question};
use crate::words::{count_in, numbered};
use book_preflights::{Lesson, Precache, Question};
use rows_shell::{Failed, Row};
use std::alloc::Global;
use value_bytes::BytesList;

/// How long a lesson holds, in seconds.
const AGE: u64 = 7_200;

// The header names of these numbers.
fn names(alloc: Global, first: u32, last: u32) -> Result<BytesList, Failed> {
    let mut names = BytesList::new(alloc);
    for number in first..=last {
        names.push(numbered(alloc, b"x-name-", number, b"")?)?;
    }
    Ok(names)
}

// What is taught of a key: its header names from this one to the 64th.
fn taught(alloc: Global, key: u32, first: u32) -> Result<Lesson, Failed> {
    let names = names(alloc, first, 63)?;
    let key = numbered(alloc, b"http://key-", key, b"")?;
    lesson(alloc, key, AGE, BytesList::new(alloc), names)
}

// A cache of so many keys of 64 entries each.
fn cache_of(alloc: Global, keys: u32) -> Result<Precache, Failed> {
    let mut cache = Precache::new(alloc);
    for key in 0..keys {
        cache.learn(&taught(alloc, key, 0)?, 0)?;
    }
    Ok(cache)
}

// A question about the last entry of each of 100 keys, from the first on to the last.
fn questions_of(alloc: Global, keys: u32) -> Result<Vec<Question>, Failed> {
    let mut questions = Vec::new(alloc);
    for number in 0..100u32 {
        let key = number.saturating_mul(keys) / 100;
        questions.push(question(taught(alloc, key, 63)?, None))?;
    }
    Ok(questions)
}

// How many of the questions are covered, asked in so many rounds.
fn asked(cache: &Precache, questions: &[Question], rounds: u32) -> u64 {
    let mut covered = 0u64;
    for _ in 0..rounds {
        for question in questions {
            if cache.covers(question, 1) {
                covered = covered.saturating_add(1);
            }
        }
    }
    covered
}

/// Fills a preflight cache with so many keys of 64 entries each, asks it for 100 of the keys in so many rounds, and
/// counts how often the answer was yes.
pub(crate) fn covered(alloc: Global, words: &Row) -> Result<u64, Failed> {
    let keys = count_in(words, 1)?;
    let rounds = count_in(words, 2)?;
    let questions = questions_of(alloc, keys)?;
    Ok(asked(&cache_of(alloc, keys)?, questions.as_slice(), rounds))
}
