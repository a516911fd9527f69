// What a Strict-Transport-Security field says of its host (RFC 6797, section 6.1).
ghost use Rattle.std.specs.Prelude.{◌≡◌, ◌≤◌, ◌↔◌, IfOk, IfSome, option_copied};
ghost use Rattle.book_hosts.specs.Field.{IsSts, greatest_age, has_twice, include_subdomains, max_age, named, sts_of};
ghost use Rattle.book_hosts.specs.Reading.{sts_in};

use crate::directives::{Directive, directives_of};
use std::alloc::Global;
use std::collections::BTreeSet;
use value_bytes::OutOfMemory;
use value_text::parse_digits;

/// The greatest max-age in seconds; a greater one counts as this (profile).
const GREATEST_AGE: u64 = 4_294_967_295;

/// What a Strict-Transport-Security field says (RFC 6797, section 6.1).
#[derive(Clone, Copy, Debug, PartialEq, Eq)]
pub struct Sts {
    /// For how many seconds the host is known: max-age, at most 4,294,967,295. With 0 the host is
    /// forgotten.
    pub age: u64,
    /// Whether the names under the host are known too: includeSubDomains.
    pub subdomains: bool,
}

// Whether a name is there twice.
fn has_twice(alloc: Global, directives: &[Directive]) -> Result<bool, OutOfMemory>
    ensures { IfOk result (λ twice. twice ≡ has_twice directives.now) }
{
    let mut names: BTreeSet<&[u8]> = BTreeSet::new(alloc);
    for directive in directives {
        if !names.insert(directive.name.as_slice())? {
            return Ok(true);
        }
    }
    Ok(false)
}

// The first directive of that name.
fn named<'a>(directives: &'a [Directive], name: &[u8]) -> Option<&'a Directive>
    ensures { option_copied result ≡ named name.now directives.now }
{
    directives
        .iter()
        .find(|directive| directive.name.as_slice() == name)
}

// The seconds of max-age, or nothing where it is absent or its value is not digits.
fn max_age(directives: &[Directive]) -> Option<u64>
    ensures { result ≡ max_age directives.now }
{
    let digits = named(directives, b"max-age")?.value.as_ref()?;
    parse_digits(digits.as_slice(), GREATEST_AGE)
}

// Whether includeSubDomains is there, or nothing where it has a value.
fn include_subdomains(directives: &[Directive]) -> Option<bool>
    ensures { result ≡ include_subdomains directives.now }
{
    match named(directives, b"includesubdomains") {
        None => Some(false),
        Some(directive) if directive.value.is_none() => Some(true),
        Some(_) => None,
    }
}

// What directives say, each of them once.
fn sts_of(directives: &[Directive]) -> Option<Sts>
    ensures { result ≡ sts_of directives.now }
{
    Some(Sts {
        age: max_age(directives)?,
        subdomains: include_subdomains(directives)?,
    })
}

// What a field's value says.
fn sts_in(alloc: Global, value: &[u8]) -> Result<Option<Sts>, OutOfMemory>
    ensures { IfOk result (λ sts. sts ≡ sts_in value.now) }
{
    let Some(directives) = directives_of(alloc, value)? else {
        return Ok(None);
    };
    if has_twice(alloc, directives.as_slice())? {
        return Ok(None);
    }
    Ok(sts_of(directives.as_slice()))
}

/// What the value of a Strict-Transport-Security field says. `None` exactly where the field is
/// ignored: where it does not follow the grammar, a directive's name is there twice, ASCII case aside,
/// max-age is absent or not digits, or includeSubDomains has a value. Other directives are ignored
/// (RFC 6797, sections 6.1, 6.1.1 and 6.1.2).
pub fn parse_sts(alloc: Global, value: &[u8]) -> Result<Option<Sts>, OutOfMemory>
    ensures says { IfOk result (λ parsed. parsed ≡ sts_in value.now) }
    ensures grammar { IfOk result (λ parsed. (sts : Sts) → (parsed ≡ Some sts) ↔ IsSts value.now sts) }
    ensures age { IfOk result (λ parsed. IfSome parsed (λ sts. sts.age ≤ greatest_age)) }
{
    sts_in(alloc, value)
}
