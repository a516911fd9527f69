// Rows of source expressions:
//
//     source WORD                             the source expression that a word is
//     matches WORD URL DOCUMENT REDIRECTS     whether it matches the URL in the document's origin after so many
//                                             redirects; `http://a.test/` and 0 where they are left out
use policy_csp_match::{HostSource, Part, Source, SourcePort, matches, parse_source};
use rows_shell::{Failed, Held, Row, Shown, origin_written, url_written};
use std::alloc::Global;
use value_origins::Origin;

// The answer to a row of these kinds, and whether the row is one.
pub(crate) fn answer(
    alloc: Global,
    kind: &str,
    row: &Row,
    shown: &mut Shown,
) -> Result<bool, Failed> {
    match kind {
        "source" => show_source(&parse_source(row.text(0)), shown),
        "matches" => matched(alloc, row, shown)?,
        _ => return Ok(false),
    }
    Ok(true)
}

// Whether the row's word matches its URL.
fn matched(alloc: Global, row: &Row, shown: &mut Shown) -> Result<(), Failed> {
    let redirects = if row.has(3, b"1") { 1 } else { 0 };
    let document = Held {
        value: document_of(alloc, row.text(2))?,
    };
    let url = Held {
        value: url_written(alloc, row.text(1))?,
    };
    let source = parse_source(row.text(0));
    shown.add_yes_or_no(matches(&source, &url.value, &document.value, redirects));
    Ok(())
}

// The origin of the document.
fn document_of(alloc: Global, written: &[u8]) -> Result<Origin, Failed> {
    if written.is_empty() {
        return origin_written(alloc, b"http://a.test/");
    }
    origin_written(alloc, written)
}

// The kind of a source expression and its parts.
fn show_source(source: &Source<'_>, shown: &mut Shown) {
    match source {
        Source::Any => shown.add(b"any"),
        Source::Scheme(scheme) => {
            shown.add(b"scheme ");
            shown.add_quoted(scheme.as_slice());
        }
        Source::Host(host) => show_host(host, shown),
        Source::SelfOrigin => shown.add(b"self"),
        Source::Nonce(value) => {
            shown.add(b"nonce ");
            shown.add_quoted(value.as_slice());
        }
        Source::Hash(bits, value) => {
            shown.add(b"hash ");
            shown.add_number(u64::from(*bits));
            shown.add(b" ");
            shown.add_quoted(value.as_slice());
        }
        Source::StrictDynamic => shown.add(b"strict-dynamic"),
        Source::NoneWord => shown.add(b"none"),
        Source::Unknown => shown.add(b"unknown"),
    }
}

// The parts that a host-source has.
fn show_host(host: &HostSource<'_>, shown: &mut Shown) {
    shown.add(b"host");
    show_part(b"scheme", &host.scheme, shown);
    shown.add_part(b"host", host.host.as_slice());
    show_port(&host.port, shown);
    show_part(b"path", &host.path, shown);
}

// A part that there may be.
fn show_part(name: &[u8], part: &Option<Part<'_>>, shown: &mut Shown) {
    match part {
        Some(part) => shown.add_part(name, part.as_slice()),
        None => (),
    }
}

// A port that there may be.
fn show_port(port: &Option<SourcePort<'_>>, shown: &mut Shown) {
    match port {
        Some(SourcePort::Any) => shown.add(b" port *"),
        Some(SourcePort::Digits(digits)) => shown.add_part(b"port", digits.as_slice()),
        None => (),
    }
}
