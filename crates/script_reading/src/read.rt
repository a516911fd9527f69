// The table of a scenario, and the reading of one from bytes.
ghost use Rattle.std.specs.Prelude.{◌≡◌, IfOk, Some, None, option_map};
ghost use Rattle.value_json.specs.Trees.{data_of};
ghost use Rattle.script_reading.specs.Formats as formats;
ghost use Rattle.script_reading.specs.Scenarios as spec;
ghost use Rattle.script_scenarios.specs.Valid.{IsValid};

use crate::cookies::CookiePair;
use crate::documents::DocumentTable;
use crate::format::{Format, body_limit, format_number, format_of, most_documents, root_keys};
use crate::hosts::HostTable;
use crate::place::Place;
use crate::routes::RoutePair;
use crate::servers::ServerTable;
use script_scenarios::{Scenario, Servers};
use std::alloc::Global;
use value_bytes::{Bytes, Items, OutOfMemory};
use value_json::{
    Form, ItemsOf, JsonText, ListOf, Number, Refused, Scratch, Tree, only_keys, optional, required,
};
use value_requests::utf8_text;

const NOW: Number = Number {
    least: 0,
    most: 1_099_511_627_776,
};

const HSTS: ListOf<HostTable> = ListOf {
    most: 4096,
    item: HostTable,
};

const COOKIES: ItemsOf<CookiePair> = ItemsOf { item: CookiePair };

const SERVERS: ItemsOf<ServerTable> = ItemsOf { item: ServerTable };

const ROUTES: ItemsOf<RoutePair> = ItemsOf { item: RoutePair };

const PIECE: Number = Number {
    least: 1,
    most: 65_536,
};

// The documents of a scenario, of which there are 64 at most, and 128 in the second format.
fn documents_of(format: Format) -> ListOf<DocumentTable>
    ensures { result ≡ record { most = formats.most_documents format; item = record { format = format } } }
{
    ListOf {
        most: most_documents(format),
        item: DocumentTable { format },
    }
}

// A scenario of a format.
#[derive(Drop)]
struct ScenarioTable {
    format: Format,
}

impl Form for ScenarioTable {
    type Out = Scenario;

    ghost reads = { λ table. spec.scenario_as table.format };

    fn read(&self, alloc: Global, tree: &Tree<'_, '_>) -> Result<Scenario, Refused> {
        only_keys(alloc, tree, root_keys(self.format))?;
        required(alloc, tree, "format", &format_number(self.format))?;
        let body_limit = body_limit(alloc, self.format, tree)?;
        let now = optional(alloc, tree, "now", 0, &NOW)?;
        let hosts = optional(alloc, tree, "hsts", Items::new(alloc), &HSTS)?;
        let cookies = optional(alloc, tree, "cookies", Items::new(alloc), &COOKIES)?;
        let servers = optional(alloc, tree, "servers", Items::new(alloc), &SERVERS)?;
        let routes = optional(alloc, tree, "routes", Items::new(alloc), &ROUTES)?;
        let piece = optional(alloc, tree, "piece", 4096, &PIECE)?;
        let documents = required(alloc, tree, "documents", &documents_of(self.format))?;
        Ok(Scenario {
            now,
            hosts,
            cookies,
            servers: Servers::of(servers),
            routes,
            piece: piece as u32,
            documents,
            body_limit,
        })
    }
}

// A refused place from the root, as it is told.
fn told(alloc: Global, place: Bytes) -> Result<Place, OutOfMemory>
    ensures { IfOk result (λ refused. refused.text ≡ spec.place_text place) }
{
    let text = if place.is_empty() {
        Bytes::of(alloc, b"/")?
    } else {
        place
    };
    Ok(Place { text })
}

// The JSON of a text, unless it is not UTF-8, not JSON, nests too deep, or has a number that is too large.
fn json_of<'a>(
    alloc: Global,
    text: &'a [u8],
    scratch: &'a mut Scratch,
) -> Result<Option<JsonText<'a>>, OutOfMemory>
    ensures { IfOk result (λ found. option_map data_of found ≡ spec.tree_of text.now) }
{
    match utf8_text(text) {
        Some(text) => JsonText::parse(alloc, text, scratch),
        None => Ok(None),
    }
}

// The refusal of a text that is no tree.
fn refused_text(alloc: Global) -> Result<Result<Scenario, Place>, OutOfMemory>
    ensures { IfOk result (λ read. read ≡ spec.scenario_of_tree None) }
{
    let text = Bytes::of(alloc, b"json")?;
    Ok(Err(Place { text }))
}

// The scenario of a tree.
fn scenario_of(alloc: Global, tree: &Tree<'_, '_>) -> Result<Result<Scenario, Place>, OutOfMemory>
    ensures value { IfOk result
        (λ read. read ≡ spec.scenario_of_tree (Some (data_of tree.now))) }
    ensures valid { IfOk result (λ read. IfOk read IsValid) }
{
    let table = ScenarioTable {
        format: format_of(tree),
    };
    match table.read(alloc, tree) {
        Ok(scenario) => Ok(Ok(scenario)),
        Err(Refused::Memory) => Err(OutOfMemory),
        Err(Refused::At(place)) => Ok(Err(told(alloc, place)?)),
    }
}

/// Reads a scenario of format 1 or 2 from the JSON tree (RFC 8259) of a text, or answers the place at which the text is
/// refused: `json` exactly where it is no tree, since it is not UTF-8, not JSON, nests too deep, or has a number that
/// is too large, and else the first place, in the order in which the tables are walked, depth first. The tables of
/// format 2 hold exactly where the root is an object whose `format` is the number 2. An object that is none, or has a
/// key that its table lacks, is refused at its own place, a required key that is missing and a value that is not taken
/// at the key, an item of a list at its number, as in `/documents/0/script/0/fetch/headers/0/1`; a `repeat` inside
/// eight others and an `if` inside 16 others at that key. The place of the root is `/`. What is read is valid: its
/// counts and values keep the format's bounds. `OutOfMemory` tells want of memory, and a text of more than
/// 4,294,967,040 bytes.
pub fn read_scenario(alloc: Global, text: &[u8]) -> Result<Result<Scenario, Place>, OutOfMemory>
    ensures value { IfOk result (λ read. read ≡ spec.scenario_of text.now) }
    ensures valid { IfOk result (λ read. IfOk read IsValid) }
{
    let mut scratch = Scratch::new(alloc);
    match json_of(alloc, text, &mut scratch)? {
        None => refused_text(alloc),
        Some(json) => scenario_of(alloc, &json.root()),
    }
}
