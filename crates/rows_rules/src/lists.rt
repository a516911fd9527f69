// Rows of header lists. The last texts make a list (`rows_shell`'s `list_of`).
//
//     list OPS                   the list
//     get NAME OPS               all values of the name, joined
//     has_value NAME TEXT OPS    whether they are the text
//     contains NAME OPS
//     split NAME OPS             the values between their commas
//     tokens NAME OPS, max_age NAME OPS, single NAME OPS    the values extracted by a rule
//     guarded GUARD OPS          the pairs appended under a guard: what came of the last, and the list
//
// `headers.rt` has the other kinds.
use crate::headers;
use policy_safelist::{Appended, Guard, guarded_append};
use rows_shell::{Failed, Row, Shown, list_of, named};
use std::alloc::Global;
use value_headers::HeaderList;
use value_lists::{Extracted, Rule, extract_values, split_values};
use value_text::{after_byte, before_byte};

/// Where the list begins in the rows of a kind.
const STARTS: [(&[u8], usize); 14] = [
    (b"list", 0),
    (b"essence", 0),
    (b"nosniff", 0),
    (b"unsafe", 0),
    (b"policy", 0),
    (b"get", 1),
    (b"contains", 1),
    (b"split", 1),
    (b"tokens", 1),
    (b"max_age", 1),
    (b"single", 1),
    (b"exposed", 1),
    (b"has_value", 2),
    (b"cors_check", 2),
];

/// The rules by which values are extracted, by the kinds of their rows.
const RULES: [(&[u8], Rule); 3] = [
    (b"tokens", Rule::Tokens),
    (b"max_age", Rule::Digits),
    (b"single", Rule::Single),
];

// The answer to a row of a header list, and whether the row is one.
pub(crate) fn answer(
    alloc: Global,
    kind: &str,
    row: &Row,
    shown: &mut Shown,
) -> Result<bool, Failed> {
    let Ok(from) = named(&STARTS, kind.as_bytes()) else {
        return guarded(alloc, kind, row, shown);
    };
    asked(alloc, kind, row, from, shown)?;
    Ok(true)
}

// The answer to a row whose list begins at an index.
fn asked(
    alloc: Global,
    kind: &str,
    row: &Row,
    from: usize,
    shown: &mut Shown,
) -> Result<(), Failed> {
    let list = list_of(alloc, row, from)?;
    if is_asked(kind, row, &list, shown) {
        return Ok(());
    }
    taken(alloc, kind, row, &list, shown)
}

// The answer to a row that takes no memory, and whether the row is one.
fn is_asked(kind: &str, row: &Row, list: &HeaderList, shown: &mut Shown) -> bool {
    match kind {
        "list" => shown.add_headers(list),
        "contains" => shown.add_yes_or_no(list.contains(row.text(0))),
        "has_value" => shown.add_yes_or_no(list.has_value(row.text(0), row.text(1))),
        _ => return headers::is_asked(kind, row, list, shown),
    }
    true
}

// The answer to any other row of a list.
fn taken(
    alloc: Global,
    kind: &str,
    row: &Row,
    list: &HeaderList,
    shown: &mut Shown,
) -> Result<(), Failed> {
    let name = row.text(0);
    if let Ok(rule) = named(&RULES, kind.as_bytes()) {
        show_extracted(&extract_values(alloc, list, name, rule)?, shown);
        return Ok(());
    }
    match kind {
        "get" => shown.add_text(list.get(alloc, name)?),
        "split" => shown.add_list(split_values(alloc, list, name)?),
        _ => return headers::taken(alloc, kind, row, list, shown),
    }
    Ok(())
}

// The values that a rule extracts.
fn show_extracted(extracted: &Extracted, shown: &mut Shown) {
    match extracted {
        Extracted::Absent => shown.add(b"absent"),
        Extracted::Failure => shown.add(b"failure"),
        Extracted::Items(items) => shown.add_texts(items.as_slice()),
    }
}

// What came of it, as a word.
fn outcome(appended: Appended) -> &'static [u8] {
    match appended {
        Appended::Kept => b"kept ",
        Appended::Ignored => b"ignored ",
        Appended::BadName => b"bad name ",
        Appended::BadValue => b"bad value ",
    }
}

// The pairs of a row, appended to a list under a guard, and what came of the last.
fn appended(
    alloc: Global,
    list: &mut HeaderList,
    row: &Row,
    guard: Guard,
) -> Result<Appended, Failed> {
    let mut last = Appended::Ignored;
    for index in 1..row.len() {
        let pair = row.text(index);
        last = guarded_append(
            alloc,
            list,
            guard,
            before_byte(pair, b':'),
            after_byte(pair, b':'),
        )?;
    }
    Ok(last)
}

// The answer to a row of a guard, and whether the row is one.
fn guarded(alloc: Global, kind: &str, row: &Row, shown: &mut Shown) -> Result<bool, Failed> {
    if kind != "guarded" {
        return Ok(false);
    }
    let guard = if row.has(0, b"no-cors") {
        Guard::NoCors
    } else {
        Guard::Request
    };
    let mut list = HeaderList::new(alloc);
    let last = appended(alloc, &mut list, row, guard)?;
    shown.add(outcome(last));
    shown.add_headers(&list);
    Ok(true)
}
