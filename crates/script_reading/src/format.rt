// The formats of scenarios, and the keys that only one of them has.
ghost use Rattle.std.specs.Prelude.{◌≡◌, map};
ghost use Rattle.value_json.specs.Trees.{data_of};
ghost use Rattle.value_json.specs.Gives.{Gives};
ghost use Rattle.script_reading.specs.Formats as spec;

use crate::urls::DocumentUrl;
use std::alloc::Global;
use url::Url;
use value_json::{Number, Refused, Tree, optional};

/// The format of a scenario.
#[derive(Clone, Copy, Debug)]
pub enum Format {
    First,
    Second,
}

const FIRST: Number = Number { least: 1, most: 1 };

const SECOND: Number = Number { least: 2, most: 2 };

const ROOT_KEYS: &[&str] = &[
    "format",
    "now",
    "hsts",
    "cookies",
    "servers",
    "routes",
    "piece",
    "documents",
];

const ROOT_KEYS_OF_SECOND: &[&str] = &[
    "format",
    "body_limit",
    "now",
    "hsts",
    "cookies",
    "servers",
    "routes",
    "piece",
    "documents",
];

const DOCUMENT_KEYS: &[&str] = &["url", "headers", "script"];

const DOCUMENT_KEYS_OF_SECOND: &[&str] = &["url", "top", "headers", "script"];

const BODY_LIMIT: Number = Number {
    least: 1,
    most: 1_048_576,
};

// The format of a tree: the second where the root is an object whose `format` is the number 2.
pub(crate) fn format_of(tree: &Tree<'_, '_>) -> Format
    ensures { result ≡ spec.format_of (data_of tree.now) }
{
    let Some(number) = tree.get("format") else {
        return Format::First;
    };
    match number.as_u64() {
        Some(2) => Format::Second,
        _ => Format::First,
    }
}

// The number of a format.
pub(crate) fn format_number(format: Format) -> Number
    ensures { result
        ≡ record { least = spec.number_of_format format; most = spec.number_of_format format } }
{
    match format {
        Format::First => FIRST,
        Format::Second => SECOND,
    }
}

// The keys of a scenario.
pub(crate) fn root_keys(format: Format) -> &'static [&'static str]
    ensures { map (λ name. name.now) result.now ≡ spec.root_keys format }
{
    match format {
        Format::First => ROOT_KEYS,
        Format::Second => ROOT_KEYS_OF_SECOND,
    }
}

// The keys of a document.
pub(crate) fn document_keys(format: Format) -> &'static [&'static str]
    ensures { map (λ name. name.now) result.now ≡ spec.document_keys format }
{
    match format {
        Format::First => DOCUMENT_KEYS,
        Format::Second => DOCUMENT_KEYS_OF_SECOND,
    }
}

// The greatest number of bytes that a response's body may have.
pub(crate) fn body_limit(alloc: Global, format: Format, tree: &Tree<'_, '_>) -> Result<u32, Refused>
    ensures { Gives result (spec.body_limit_of format (data_of tree.now)) }
{
    match format {
        Format::First => Ok(262_144),
        Format::Second => {
            let limit = optional(alloc, tree, "body_limit", 1_048_576, &BODY_LIMIT)?;
            Ok(limit as u32)
        }
    }
}

// How many documents there are at most.
pub(crate) fn most_documents(format: Format) -> usize
    ensures { result ≡ spec.most_documents format }
{
    match format {
        Format::First => 64,
        Format::Second => 128,
    }
}

// The URL of the page at the top of a document with this URL.
pub(crate) fn top_url(
    alloc: Global,
    format: Format,
    url: &Url,
    tree: &Tree<'_, '_>,
) -> Result<Url, Refused>
    ensures { Gives result (spec.top_of format url.now (data_of tree.now)) }
{
    let itself = url.clone()?;
    match format {
        Format::First => Ok(itself),
        Format::Second => optional(alloc, tree, "top", itself, &DocumentUrl),
    }
}
