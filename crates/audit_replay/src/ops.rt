// Whether two ops are one.
ghost use Rattle.std.specs.Prelude.{◌≡◌, bytes_eq};
ghost use Rattle.audit_replay.specs.Private.Ops as spec;

use book_calls::Op;
use book_hosts::Sts;
use book_preflights::{Lesson, Names, Question};
use value_bytes::Bytes;

fn same(one: &Bytes, other: &Bytes) -> bool
    ensures { result ≡ bytes_eq one.now other.now }
{
    one.as_slice() == other.as_slice()
}

fn same_flag(one: bool, other: bool) -> bool
    ensures { result ≡ spec.bool_eq one other }
{
    if one { other } else { !other }
}

fn same_texts(one: &Names, other: &Names) -> bool
    ensures { result ≡ spec.texts_eq one.now other.now }
{
    if one.len() != other.len() {
        return false;
    }
    for index in 0..one.len() {
        if one.at(index) != other.at(index) {
            return false;
        }
    }
    true
}

fn same_method(one: &Option<Bytes>, other: &Option<Bytes>) -> bool
    ensures { result ≡ spec.method_eq one.now other.now }
{
    match (one, other) {
        (None, None) => true,
        (Some(one), Some(other)) => same(one, other),
        (None, Some(_)) | (Some(_), None) => false,
    }
}

fn same_sts(one: &Sts, other: &Sts) -> bool
    ensures { result ≡ spec.sts_eq one.now other.now }
{
    one.age == other.age && same_flag(one.subdomains, other.subdomains)
}

fn same_question(one: &Question, other: &Question) -> bool
    ensures { result ≡ spec.question_eq one.now other.now }
{
    same(&one.key, &other.key)
        && same(&one.origin, &other.origin)
        && same(&one.url, &other.url)
        && same_flag(one.include, other.include)
        && same_method(&one.method, &other.method)
        && same_texts(&one.names, &other.names)
}

fn same_lesson(one: &Lesson, other: &Lesson) -> bool
    ensures { result ≡ spec.lesson_eq one.now other.now }
{
    same(&one.key, &other.key)
        && same(&one.origin, &other.origin)
        && same(&one.url, &other.url)
        && same_flag(one.include, other.include)
        && one.age == other.age
        && same_texts(&one.methods, &other.methods)
        && same_texts(&one.names, &other.names)
}

// Whether the two ops are one.
pub(crate) fn same_op(one: &Op, other: &Op) -> bool
    ensures { result ≡ spec.op_eq one.now other.now }
{
    match (one, other) {
        (Op::Match(host, now), Op::Match(name, then)) => same(host, name) && *now == *then,
        (Op::Note(host, sts, now), Op::Note(name, field, then)) => {
            same(host, name) && same_sts(sts, field) && *now == *then
        }
        (Op::Covers(question, now), Op::Covers(other, then)) => {
            same_question(question, other) && *now == *then
        }
        (Op::Learn(lesson, now), Op::Learn(other, then)) => {
            same_lesson(lesson, other) && *now == *then
        }
        (Op::Clear(key, origin, url, now), Op::Clear(other, source, address, then)) => {
            same(key, other) && same(origin, source) && same(url, address) && *now == *then
        }
        _ => false,
    }
}
