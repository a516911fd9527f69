// "extract header list values" (Fetch, section 2.2.2).
ghost use Rattle.std.specs.Prelude.{◌≡◌, ◌++◌, ◌∷◌, [], filter, IfOk, OnOk};
ghost use Rattle.std.specs.List.{list_all};
ghost use Rattle.value_text.specs.Tokens.{is_token};
ghost use Rattle.value_text.specs.Trims.{tab_or_space, trimmed};
ghost use Rattle.value_headers.specs.Headers.{values_of};
ghost use Rattle.value_lists.specs.Extract.{extracted, extracted_of, items};
ghost use Rattle.value_text.specs.Words.{is_filled};
ghost use Rattle.value_lists.specs.Private.Finding.{WasFound};
ghost use Rattle.value_lists.specs.declared.extract.Rule.TheVariants.{Tokens, Digits, Single};

use std::alloc::Global;
use value_bytes::{Bytes, BytesList, OutOfMemory};
use value_headers::{Field, HeaderList};
use value_text::{eq_fold, is_digits, is_token, position_of, trim_tab_or_space};

/// How the values of a header are extracted.
#[derive(Clone, Copy)]
pub enum Rule {
    /// A list of tokens, as of Access-Control-Allow-Methods.
    Tokens,
    /// One value of one digit or more, as of Access-Control-Max-Age.
    Digits,
    /// One value, as of Location.
    Single,
}

/// The values that were extracted.
#[derive(Drop)]
pub enum Extracted {
    /// The list does not contain the name.
    Absent,
    /// The values break the rule.
    Failure,
    /// The items, in order.
    Items(BytesList),
}

/// How often a value was found, and the value where that is once.
#[derive(Drop)]
enum Found<'a> {
    Nothing,
    Once(&'a [u8]),
    Repeated,
}

// Adds an item, trimmed, unless it is empty.
fn add_item(alloc: Global, list: &mut BytesList, text: &[u8]) -> Result<(), OutOfMemory>
    ensures { OnOk result (list.new
        ≡ list.old ++ filter is_filled (trimmed tab_or_space text.now ∷ [])) }
{
    let item = trim_tab_or_space(text);
    if !item.is_empty() {
        list.push(Bytes::of(alloc, item)?)?;
    }
    Ok(())
}

// Adds the items of a value.
fn add_items(alloc: Global, list: &mut BytesList, value: &[u8]) -> Result<(), OutOfMemory>
    ensures { OnOk result (list.new ≡ list.old ++ items value.now) }
{
    let mut rest = value;
    while let Some(comma) = position_of(rest, b',') {
        let (item, behind) = rest.split_at(comma);
        add_item(alloc, list, item)?;
        rest = behind.split_at(1).1;
    }
    add_item(alloc, list, rest)
}

// Whether each text is a token.
fn are_tokens(texts: &BytesList) -> bool
    ensures { result ≡ list_all is_token texts.now }
{
    for index in 0..texts.len() {
        if !is_token(texts.at(index)) {
            return false;
        }
    }
    true
}

// The tokens in the values of a name.
fn tokens_in(alloc: Global, headers: &[Field], name: &[u8]) -> Result<Extracted, OutOfMemory>
    ensures { IfOk result (λ found. found ≡ extracted Tokens name.now headers.now) }
{
    let mut tokens = BytesList::new(alloc);
    let mut found = false;
    for header in headers {
        if eq_fold(header.name(), name) {
            add_items(alloc, &mut tokens, header.value())?;
            found = true;
        }
    }
    if !found {
        Ok(Extracted::Absent)
    } else if are_tokens(&tokens) {
        Ok(Extracted::Items(tokens))
    } else {
        Ok(Extracted::Failure)
    }
}

// What there is of the values of a name: none, one, or at least two.
fn find<'a>(headers: &'a [Field], name: &[u8]) -> Found<'a>
    ensures { WasFound result (values_of name.now headers.now) }
{
    let mut found = Found::Nothing;
    for header in headers {
        if eq_fold(header.name(), name) {
            match found {
                Found::Nothing => found = Found::Once(header.value()),
                Found::Once(_) | Found::Repeated => return Found::Repeated,
            }
        }
    }
    found
}

// The one item.
fn one(alloc: Global, value: &[u8]) -> Result<Extracted, OutOfMemory>
    ensures { IfOk result (λ found. found ≡ Extracted.Items (value.now ∷ [])) }
{
    let mut items = BytesList::new(alloc);
    items.push(Bytes::of(alloc, value)?)?;
    Ok(Extracted::Items(items))
}

/// "extract header list values": the items of the values of that name by a rule (Fetch, section 2.2.2).
///
/// `Absent` exactly where the list does not contain the name. By `Tokens` the items are what is between the commas of
/// each value, trimmed, the empty ones skipped, and it is a failure where one is no token. By `Digits` and `Single` the
/// item is the value, and it is a failure where the name is there twice, and by `Digits` where the value is not one
/// digit or more.
pub fn extract_values(
    alloc: Global,
    headers: &HeaderList,
    name: &[u8],
    rule: Rule,
) -> Result<Extracted, OutOfMemory>
    ensures { IfOk result (λ found. found ≡ extracted rule name.now headers.now) }
{
    match rule {
        Rule::Tokens => tokens_in(alloc, headers.as_slice(), name),
        Rule::Digits => match find(headers.as_slice(), name) {
            Found::Nothing => Ok(Extracted::Absent),
            Found::Once(value) if is_digits(value) => one(alloc, value),
            Found::Once(_) | Found::Repeated => Ok(Extracted::Failure),
        },
        Rule::Single => match find(headers.as_slice(), name) {
            Found::Nothing => Ok(Extracted::Absent),
            Found::Once(value) => one(alloc, value),
            Found::Repeated => Ok(Extracted::Failure),
        },
    }
}
