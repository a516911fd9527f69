// Reads an allow table from its text, a row on each line.
ghost use Rattle.std.specs.Prelude.{◌≡◌, ◌≤◌, ◌∷◌, [], map, Result, Ok, Err, IfOk, OnOk, option_map};
ghost use Rattle.std.specs.List.{list_all};
ghost use Rattle.std.specs.Str.{str_to_ascii_lowercase};
ghost use Rattle.server_tables.specs.Reading as spec;

use crate::table::{AllowTable, Row};
use std::alloc::Global;
use value_bytes::{Bytes, BytesList, OutOfMemory, in_lower_case};
use value_requests::read_origin;
use value_text::{is_token, is_wildcard, parts_between, position_of};

// How many rows a table has at most.
const MOST_ROWS: u32 = 256;

// How many bytes a line has at most, its LF aside.
const MOST_IN_LINE: usize = 4_096;

/// The first line of a table's text that has not the form of a row, counted from 1.
#[derive(Clone, Copy, Debug, PartialEq, Eq)]
pub struct BadLine {
    pub line: u32,
}

// Whether a row may list the text.
fn may_be_listed(text: &[u8]) -> bool
    ensures { result ≡ spec.may_be_listed text.now }
{
    is_token(text) && !is_wildcard(text)
}

// Whether a row may list each of the texts.
fn may_all_be_listed(texts: &[&[u8]]) -> bool
    ensures { result ≡ list_all (λ text. spec.may_be_listed text.now) texts.now }
{
    texts.iter().all(|text| may_be_listed(text))
}

// Copies of the texts.
fn copies(alloc: Global, texts: &[&[u8]]) -> Result<BytesList, OutOfMemory>
    ensures { IfOk result (λ list. list ≡ map (λ text. text.now) texts.now) }
{
    let mut list = BytesList::new(alloc);
    for text in texts {
        list.push(Bytes::of(alloc, text)?)?;
    }
    Ok(list)
}

// The texts, where a row may list each of them.
fn where_listed(alloc: Global, texts: &[&[u8]]) -> Result<Option<BytesList>, OutOfMemory>
    ensures { IfOk result (λ list. list ≡ spec.where_listed (map (λ text. text.now) texts.now)) }
{
    if may_all_be_listed(texts) {
        Ok(Some(copies(alloc, texts)?))
    } else {
        Ok(None)
    }
}

// The texts of a list, where it is one.
fn listed(alloc: Global, text: &[u8]) -> Result<Option<BytesList>, OutOfMemory>
    ensures { IfOk result (λ list. list ≡ spec.listed text.now) }
{
    if text == b"()".as_slice() {
        return Ok(Some(BytesList::new(alloc)));
    }
    let parts = parts_between(alloc, text, b',')?;
    where_listed(alloc, parts.as_slice())
}

// The texts in lower case.
fn all_in_lower_case(alloc: Global, texts: &BytesList) -> Result<BytesList, OutOfMemory>
    ensures { IfOk result (λ list. list ≡ map str_to_ascii_lowercase texts.now) }
{
    let mut list = BytesList::new(alloc);
    for text in texts.as_slice() {
        list.push(in_lower_case(alloc, text.as_slice())?)?;
    }
    Ok(list)
}

// Whether a row has credentials, where the text says so.
fn credentials_in(text: &[u8]) -> Option<bool>
    ensures { result ≡ spec.credentials_in text.now }
{
    if text == b"include".as_slice() {
        Some(true)
    } else if text == b"other".as_slice() {
        Some(false)
    } else {
        None
    }
}

// The row of the four parts of a line, where they are those of one.
fn row_of_parts(
    alloc: Global,
    origin: &[u8],
    methods: &[u8],
    names: &[u8],
    credentials: &[u8],
) -> Result<Option<Row>, OutOfMemory>
    ensures { IfOk result (λ row. row
        ≡ spec.row_of_parts (origin.now ∷ methods.now ∷ names.now ∷ credentials.now ∷ [])) }
{
    if read_origin(alloc, origin)?.is_none() {
        return Ok(None);
    }
    let Some(methods) = listed(alloc, methods)? else {
        return Ok(None);
    };
    let Some(names) = listed(alloc, names)? else {
        return Ok(None);
    };
    let Some(credentials) = credentials_in(credentials) else {
        return Ok(None);
    };
    Ok(Some(Row {
        origin: Bytes::of(alloc, origin)?,
        methods,
        names: all_in_lower_case(alloc, &names)?,
        credentials,
    }))
}

// The row that a line is, if it is one.
fn row_in(alloc: Global, line: &[u8]) -> Result<Option<Row>, OutOfMemory>
    ensures { IfOk result (λ row. row ≡ spec.row_in line.now) }
{
    if line.len() > MOST_IN_LINE {
        return Ok(None);
    }
    let parts = parts_between(alloc, line, b' ')?;
    if parts.as_slice().len() != 4 {
        return Ok(None);
    }
    row_of_parts(alloc, parts[0], parts[1], parts[2], parts[3])
}

/// The table that the text is, a row on each line, `ORIGIN METHODS NAMES CRED`, each line ended by LF; or the
/// first line that has not this form, has no LF, or is line 257.
pub fn read_table(alloc: Global, text: &[u8]) -> Result<Result<AllowTable, BadLine>, OutOfMemory>
    ensures { IfOk result (λ table. table ≡ spec.table_of text.now) }
{
    let mut table = AllowTable::new(alloc);
    let mut rest = text;
    let mut line = 1;
    while !rest.is_empty() {
        let Some(end) = position_of(rest, b'\n') else {
            return Ok(Err(BadLine { line }));
        };
        if line > MOST_ROWS {
            return Ok(Err(BadLine { line }));
        }
        let Some(row) = row_in(alloc, rest.split_at(end).0)? else {
            return Ok(Err(BadLine { line }));
        };
        table.add(alloc, row)?;
        rest = rest.split_at(end + 1).1;
        line += 1;
    }
    Ok(Ok(table))
}
