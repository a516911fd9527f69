// Rows of words on texts:
//
//     token TEXT, value TEXT, is_digits TEXT     whether it is a token, a header value, one digit or more
//     tchars                                     how many of the 256 bytes are tokens
//     digits TEXT CAP                            the number that the digits write, at most the cap
//     trim_http TEXT, trim TEXT                  without HTTP whitespace, or tabs and spaces, at its ends
//     fold TEXT TEXT                             whether they are equal, ASCII case aside
//     essence_is VALUE ESSENCE, written_essence VALUE
//     javascript ESSENCE                         whether it is that of a JavaScript MIME type
//     mime_blocked ESSENCE DESTINATION           whether the response is blocked; `-` is no essence
//     nosniff_blocked ESSENCE DESTINATION
//     safelisted NAME VALUE                      whether it is a CORS-safelisted request-header
//     forbidden_method METHOD
//     local NAME                                 whether it is a localhost name
//
// and of texts that are read into memory:
//
//     sts VALUE                                  what a Strict-Transport-Security field says
//     split_value VALUE                          the values between its commas
//     enforce VALUE, report VALUE                the policies of a header value of that disposition
//     metadata TEXT                              the hash expressions of an integrity text
//     body TEXT BODY                             whether the body matches them
use book_hosts::{Sts, parse_sts};
use policy_csp_text::{Directive, Policies, first_word, parse_policies};
use policy_integrity::{matches, parse_metadata};
use policy_safelist::{is_forbidden_method, is_safelisted};
use rows_shell::{Failed, Row, Shown};
use std::alloc::Global;
use value_lists::{is_javascript, mime_blocked, nosniff_blocked, split_value};
use value_origins::is_local_name;
use value_text::{
    eq_fold, essence_is, is_digits, is_token, is_value, parse_digits, trim_http, trim_tab_or_space,
    written_essence,
};

// The answer to a row of a text, and whether the row is one.
pub(crate) fn answer(kind: &str, row: &Row, shown: &mut Shown) -> bool {
    match is_so(kind, row) {
        Some(answer) => shown.add_yes_or_no(answer),
        None => return part(kind, row, shown),
    }
    true
}

// The answer to a row that asks whether a text is something.
fn is_so(kind: &str, row: &Row) -> Option<bool> {
    let text = row.text(0);
    match kind {
        "token" => Some(is_token(text)),
        "value" => Some(is_value(text)),
        "is_digits" => Some(is_digits(text)),
        "fold" => Some(eq_fold(text, row.text(1))),
        "essence_is" => Some(essence_is(text, row.text(1))),
        "javascript" => Some(is_javascript(text)),
        "safelisted" => Some(is_safelisted(text, row.text(1))),
        "forbidden_method" => Some(is_forbidden_method(text)),
        "local" => Some(is_local_name(text)),
        _ => is_blocked(kind, row),
    }
}

// The answer to a row that asks whether a response is blocked.
fn is_blocked(kind: &str, row: &Row) -> Option<bool> {
    let essence = if row.has(0, b"-") {
        None
    } else {
        Some(row.text(0))
    };
    let script = row.has(1, b"script");
    let style = row.has(1, b"style");
    match kind {
        "mime_blocked" => Some(mime_blocked(essence, script)),
        "nosniff_blocked" => Some(nosniff_blocked(essence, script, style)),
        _ => None,
    }
}

// The answer to a row that asks for a part of a text, and whether the row is one.
fn part(kind: &str, row: &Row, shown: &mut Shown) -> bool {
    let text = row.text(0);
    match kind {
        "trim_http" => shown.add_quoted(trim_http(text)),
        "trim" => shown.add_quoted(trim_tab_or_space(text)),
        "written_essence" => shown.add_or_none(written_essence(text)),
        "digits" => digits(text, row.text(1), shown),
        "tchars" => shown.add_number(tchars()),
        _ => return false,
    }
    true
}

// The number that the digits write, at most the cap.
fn digits(text: &[u8], cap: &[u8], shown: &mut Shown) {
    let cap = parse_digits(cap, u64::MAX).unwrap_or(0);
    match parse_digits(text, cap) {
        Some(number) => shown.add_number(number),
        None => shown.add(b"none"),
    }
}

// How many bytes are tokens alone.
fn tchars() -> u64 {
    let mut count = 0u64;
    for byte in 0..=255u8 {
        if is_token(&[byte]) {
            count = count.saturating_add(1);
        }
    }
    count
}

// The answer to a row of a text that is read into memory, and whether the row is one.
pub(crate) fn parsed(
    alloc: Global,
    kind: &str,
    row: &Row,
    shown: &mut Shown,
) -> Result<bool, Failed> {
    let text = row.text(0);
    match kind {
        "sts" => show_sts(parse_sts(alloc, text)?, shown),
        "split_value" => shown.add_list(Some(split_value(alloc, text)?)),
        "enforce" => policies(alloc, text, true, shown)?,
        "report" => policies(alloc, text, false, shown)?,
        "metadata" => metadata(alloc, text, shown)?,
        "body" => body(alloc, row, shown)?,
        _ => return Ok(false),
    }
    Ok(true)
}

// The age that a field says, and whether it says subdomains.
fn show_sts(said: Option<Sts>, shown: &mut Shown) {
    let Some(said) = said else {
        shown.add(b"none");
        return;
    };
    shown.add_number(said.age);
    if said.subdomains {
        shown.add(b" and subdomains");
    }
}

// The policies of a header value.
fn policies(alloc: Global, text: &[u8], enforced: bool, shown: &mut Shown) -> Result<(), Failed> {
    show_policies(&parse_policies(alloc, text, enforced)?, shown);
    Ok(())
}

// Policies: of each its disposition, its directives, and a bar.
fn show_policies(policies: &Policies, shown: &mut Shown) {
    for policy in policies.as_slice() {
        shown.add(if policy.enforced {
            b"enforce "
        } else {
            b"report "
        });
        show_directives(policy.directives.as_slice(), shown);
        shown.add(b"|");
    }
}

// Directives: of each its name, its words with a space before each, and a semicolon.
fn show_directives(directives: &[Directive], shown: &mut Shown) {
    for directive in directives {
        shown.add_escaped(directive.name.as_slice());
        show_words(directive.words.as_text(), shown);
        shown.add(b";");
    }
}

// The words of a text, with a space before each.
fn show_words(text: &[u8], shown: &mut Shown) {
    let mut left = text;
    while let Some((word, rest)) = first_word(left) {
        shown.add(b" ");
        shown.add_escaped(word);
        left = rest;
    }
}

// The hash expressions of an integrity text: the bits of each, its value and a bar.
fn metadata(alloc: Global, text: &[u8], shown: &mut Shown) -> Result<(), Failed> {
    let metadata = parse_metadata(alloc, text)?;
    for hash in metadata.as_slice() {
        shown.add_number(u64::from(hash.algorithm));
        shown.add(b" ");
        shown.add_escaped(hash.value.as_slice());
        shown.add(b"|");
    }
    Ok(())
}

// Whether the row's body matches its integrity text.
fn body(alloc: Global, row: &Row, shown: &mut Shown) -> Result<(), Failed> {
    let metadata = parse_metadata(alloc, row.text(0))?;
    shown.add_yes_or_no(matches(alloc, row.text(1), &metadata)?);
    Ok(())
}
