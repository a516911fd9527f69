// Questions and lessons that the words of a row write from the second on, `-` where there is none, and several texts
// with a comma between:
//
//     KEY URL CREDENTIALS METHOD NAMES          a question
//     KEY URL CREDENTIALS AGE METHODS NAMES     a lesson, of 7,200 seconds at most
ghost use Rattle.std.specs.Prelude.{◌≤◌, IfOk};

use book_preflights::{Lesson, Names, Question};
use rows_shell::{Failed, Row, named, number, texts_between};
use std::alloc::Global;
use value_bytes::Bytes;

/// The origin of all requests.
pub(crate) const ORIGIN: &[u8] = b"http://a.test";

/// The longest age of a lesson, in seconds.
const MOST_AGE: u64 = 7_200;

/// The words for whether the credentials mode is include.
const CREDENTIALS: [(&[u8], bool); 2] = [(b"include", true), (b"other", false)];

// The texts between the commas of a word, or none where it is `-`.
fn texts(alloc: Global, word: &[u8]) -> Result<Names, Failed> {
    if word == b"-".as_slice() {
        return Ok(Names::new(alloc));
    }
    let texts = texts_between(alloc, word, b',')?;
    Ok(Names::of(alloc, texts.as_slice())?)
}

// A lesson that teaches nothing.
fn no_lesson(alloc: Global) -> Lesson {
    Lesson {
        key: Bytes::new(alloc),
        origin: Bytes::new(alloc),
        url: Bytes::new(alloc),
        include: false,
        age: 0,
        methods: Names::new(alloc),
        names: Names::new(alloc),
    }
}

// Sets what questions and lessons have, with these names.
fn set_shared(lesson: &mut Lesson, words: &Row, names: Names) -> Result<(), Failed> {
    lesson.names = names;
    lesson.key.append(words.text(1))?;
    lesson.origin.append(ORIGIN)?;
    lesson.url.append(words.text(2))?;
    lesson.include = named(&CREDENTIALS, words.text(3))?;
    Ok(())
}

// The lesson for no time that words write, of no methods and the names that the word at an index writes.
fn begun(alloc: Global, words: &Row, index: usize) -> Result<Lesson, Failed> {
    let names = texts(alloc, words.text(index))?;
    let mut lesson = no_lesson(alloc);
    set_shared(&mut lesson, words, names)?;
    Ok(lesson)
}

// The method of a question, or none.
fn method_in(alloc: Global, word: &[u8]) -> Result<Option<Bytes>, Failed> {
    if word == b"-".as_slice() {
        return Ok(None);
    }
    Ok(Some(Bytes::of(alloc, word)?))
}

// The question that words write.
pub(crate) fn question_of(alloc: Global, words: &Row) -> Result<Question, Failed> {
    let method = method_in(alloc, words.text(4))?;
    let lesson = begun(alloc, words, 5)?;
    Ok(Question {
        key: lesson.key,
        origin: lesson.origin,
        url: lesson.url,
        include: lesson.include,
        method,
        names: lesson.names,
    })
}

// The lesson that words write.
pub(crate) fn lesson_of(alloc: Global, words: &Row) -> Result<Lesson, Failed>
    ensures { IfOk result (λ lesson. lesson.age ≤ 7200) }
{
    let age = number(words.text(4), MOST_AGE)?.min(MOST_AGE);
    let methods = texts(alloc, words.text(5))?;
    let mut lesson = begun(alloc, words, 6)?;
    lesson.age = age;
    lesson.methods = methods;
    Ok(lesson)
}
