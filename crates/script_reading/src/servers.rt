// The tables of servers and their rules.
ghost use Rattle.script_reading.specs.Scenarios as spec;
ghost use Rattle.std.specs.Prelude.{◌≡◌, map, is_some};
ghost use Rattle.value_json.specs.Trees.{data_of};
ghost use Rattle.value_json.specs.Gives.{Gives};

use crate::answers::answer_bytes;
use crate::headers::PlainHeader;
use crate::texts::OriginText;
use script_scenarios::{Rule, Server};
use std::alloc::Global;
use value_bytes::{Bytes, Items};
use value_json::{
    AnyText, Form, Given, ItemsOf, Number, Refused, TextThat, Token, Tree, only_keys, optional,
    required,
};

// The keys of a rule whose answer is given by its bytes.
const RAW_KEYS: &[&str] = &["method", "path", "raw"];

// The keys of a rule whose answer is given by its status.
const STATUS_KEYS: &[&str] = &["method", "path", "status", "headers", "body"];

const METHOD: Given<TextThat<Token>> = Given {
    form: TextThat { test: Token },
};

const PATH: Given<TextThat<AnyText>> = Given {
    form: TextThat { test: AnyText },
};

const STATUS: Number = Number {
    least: 100,
    most: 999,
};

const HEADERS: ItemsOf<PlainHeader> = ItemsOf { item: PlainHeader };

const TEXT: TextThat<AnyText> = TextThat { test: AnyText };

const ORIGIN: TextThat<OriginText> = TextThat { test: OriginText };

const RULES: ItemsOf<RuleTable> = ItemsOf { item: RuleTable };

// The bytes of an answer by its status.
fn status_answer(alloc: Global, tree: &Tree<'_, '_>) -> Result<Bytes, Refused>
    ensures { Gives result (spec.status_answer_of (data_of tree.now)) }
{
    let status = required(alloc, tree, "status", &STATUS)?;
    let headers = optional(alloc, tree, "headers", Items::new(alloc), &HEADERS)?;
    let body = optional(alloc, tree, "body", Bytes::new(alloc), &TEXT)?;
    Ok(answer_bytes(alloc, status, headers.as_slice(), body.as_slice())?)
}

// The bytes of an answer, as they are written or by its status.
fn rule_answer(alloc: Global, raw: bool, tree: &Tree<'_, '_>) -> Result<Bytes, Refused>
    ensures { Gives result (spec.answer_of raw (data_of tree.now)) }
{
    if raw {
        required(alloc, tree, "raw", &TEXT)
    } else {
        status_answer(alloc, tree)
    }
}

// The keys of a rule.
fn rule_keys(raw: bool) -> &'static [&'static str]
    ensures { map (λ name. name.now) result.now ≡ spec.rule_keys raw }
{
    if raw { RAW_KEYS } else { STATUS_KEYS }
}

// Which requests a rule is for, and its answer.
#[derive(Drop)]
struct RuleTable;

impl Form for RuleTable {
    type Out = Rule;

    ghost reads = { λ _. spec.rule_of };

    fn read(&self, alloc: Global, tree: &Tree<'_, '_>) -> Result<Rule, Refused> {
        let raw = tree.get("raw").is_some();
        only_keys(alloc, tree, rule_keys(raw))?;
        let method = optional(alloc, tree, "method", None, &METHOD)?;
        let path = optional(alloc, tree, "path", None, &PATH)?;
        let answer = rule_answer(alloc, raw, tree)?;
        Ok(Rule {
            method,
            path,
            answer,
        })
    }
}

/// A server: its origin and its rules.
#[derive(Drop)]
pub(crate) struct ServerTable;

impl Form for ServerTable {
    type Out = Server;

    ghost reads = { λ _. spec.server_of };

    fn read(&self, alloc: Global, tree: &Tree<'_, '_>) -> Result<Server, Refused> {
        only_keys(alloc, tree, &["origin", "rules"])?;
        let origin = required(alloc, tree, "origin", &ORIGIN)?;
        let rules = required(alloc, tree, "rules", &RULES)?;
        Ok(Server { origin, rules })
    }
}
