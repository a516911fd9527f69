// The calls of the shared book, told piece by piece.
#![tactic(auto, using(crate::proofs::KeptLemmas::told_pieces))]

ghost use Rattle.std.specs.Prelude.{◌≡◌, ◌++◌, codes, drop, OnOk};
ghost use Rattle.script_lines.specs.Calls as spec;
ghost use Rattle.script_lines.specs.Kept.{Told};

use crate::receiver::Receiver;
use book_calls::{Op, Reply};
use book_hosts::Sts;
use book_preflights::{Lesson, Names, Question};
use value_bytes::Bytes;

// What an operation replied.
fn reply_text(reply: Reply) -> &'static [u8]
    ensures { result.now ≡ spec.reply_text reply }
{
    match reply {
        Reply::Yes => b"yes",
        Reply::No => b"no",
        Reply::Done => b"done",
    }
}

// Whether the credentials mode is include.
fn credentials_text(include: bool) -> &'static [u8]
    ensures { result.now ≡ spec.credentials_text include }
{
    if include { b"include" } else { b"other" }
}

// Whether the names under a host are meant too.
fn subdomains_text(subdomains: bool) -> &'static [u8]
    ensures { result.now ≡ spec.subdomains_text subdomains }
{
    if subdomains { b"sub" } else { b"exact" }
}

// Tells the texts but the first, each after a comma.
fn tell_comma_texts<R: Receiver>(receiver: &mut R, texts: &Names) -> Result<(), R::Refusal>
    ensures { OnOk result (Told (R.kept receiver.old) (R.kept receiver.new) (spec.comma_texts (drop 1 texts.now))) }
{
    for index in 1..texts.len() {
        receiver.text(b",")?;
        receiver.text(texts.at(index))?;
    }
    Ok(())
}

// Tells a list of texts.
fn tell_list<R: Receiver>(receiver: &mut R, texts: &Names) -> Result<(), R::Refusal>
    ensures { OnOk result (Told (R.kept receiver.old) (R.kept receiver.new) (spec.list_text texts.now)) }
{
    if texts.is_empty() {
        return receiver.text(b"()");
    }
    receiver.text(texts.at(0))?;
    tell_comma_texts(receiver, texts)
}

// The method that is asked for.
fn method_text(method: &Option<Bytes>) -> &[u8]
    ensures { result.now ≡ spec.method_text method.now }
{
    match method {
        None => b"()",
        Some(method) => method.as_slice(),
    }
}

// Tells a word and the space after it.
fn tell_word<R: Receiver>(receiver: &mut R, word: &[u8]) -> Result<(), R::Refusal>
    ensures { OnOk result (Told (R.kept receiver.old) (R.kept receiver.new) (word.now ++ codes " ")) }
{
    receiver.text(word)?;
    receiver.text(b" ")
}

// Tells what a Strict-Transport-Security field said.
fn tell_sts<R: Receiver>(receiver: &mut R, sts: &Sts) -> Result<(), R::Refusal>
    ensures { OnOk result (Told (R.kept receiver.old) (R.kept receiver.new) (spec.sts_text sts.now)) }
{
    receiver.number(sts.age)?;
    receiver.text(b" ")?;
    receiver.text(subdomains_text(sts.subdomains))
}

// Tells what a request would need of the preflight cache.
fn tell_question<R: Receiver>(receiver: &mut R, question: &Question) -> Result<(), R::Refusal>
    ensures { OnOk result (Told (R.kept receiver.old) (R.kept receiver.new) (spec.question_text question.now)) }
{
    tell_word(receiver, question.key.as_slice())?;
    tell_word(receiver, question.origin.as_slice())?;
    tell_word(receiver, credentials_text(question.include))?;
    tell_word(receiver, method_text(&question.method))?;
    tell_list(receiver, &question.names)?;
    receiver.text(b" ")?;
    receiver.text(question.url.as_slice())
}

// Tells what a preflight taught.
fn tell_lesson<R: Receiver>(receiver: &mut R, lesson: &Lesson) -> Result<(), R::Refusal>
    ensures { OnOk result (Told (R.kept receiver.old) (R.kept receiver.new) (spec.lesson_text lesson.now)) }
{
    tell_word(receiver, lesson.key.as_slice())?;
    tell_word(receiver, lesson.origin.as_slice())?;
    tell_word(receiver, credentials_text(lesson.include))?;
    receiver.number(lesson.age)?;
    receiver.text(b" ")?;
    tell_list(receiver, &lesson.methods)?;
    receiver.text(b" ")?;
    tell_list(receiver, &lesson.names)?;
    receiver.text(b" ")?;
    receiver.text(lesson.url.as_slice())
}

// Tells the time of an operation.
fn tell_time<R: Receiver>(receiver: &mut R, now: u64) -> Result<(), R::Refusal>
    ensures { OnOk result (Told (R.kept receiver.old) (R.kept receiver.new) (spec.time_text now)) }
{
    receiver.text(b" at ")?;
    receiver.number(now)
}

// Tells an operation and its time.
fn tell_op<R: Receiver>(receiver: &mut R, op: &Op) -> Result<(), R::Refusal>
    ensures { OnOk result (Told (R.kept receiver.old) (R.kept receiver.new) (spec.op_text op.now)) }
{
    match op {
        Op::Match(host, now) => {
            receiver.text(b"match ")?;
            receiver.text(host.as_slice())?;
            tell_time(receiver, *now)
        }
        Op::Note(host, sts, now) => {
            receiver.text(b"note ")?;
            tell_word(receiver, host.as_slice())?;
            tell_sts(receiver, sts)?;
            tell_time(receiver, *now)
        }
        Op::Covers(question, now) => {
            receiver.text(b"covers ")?;
            tell_question(receiver, question)?;
            tell_time(receiver, *now)
        }
        Op::Learn(lesson, now) => {
            receiver.text(b"learn ")?;
            tell_lesson(receiver, lesson)?;
            tell_time(receiver, *now)
        }
        Op::Clear(key, origin, url, now) => {
            receiver.text(b"clear ")?;
            tell_word(receiver, key.as_slice())?;
            tell_word(receiver, origin.as_slice())?;
            receiver.text(url.as_slice())?;
            tell_time(receiver, *now)
        }
    }
}

/// Tells an operation, and what it replied. Where a piece is refused, any of it may be kept.
pub fn tell_call<R: Receiver>(receiver: &mut R, op: &Op, reply: Reply) -> Result<(), R::Refusal>
    ensures { OnOk result (Told (R.kept receiver.old) (R.kept receiver.new) (spec.call_text op.now reply)) }
{
    tell_op(receiver, op)?;
    receiver.text(b": ")?;
    receiver.text(reply_text(reply))
}
