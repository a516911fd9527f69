// The table of what an element asks for that loads a resource.
ghost use Rattle.script_steps.specs.Loads as spec;

use crate::texts::{TEMPLATE, TEXT, policy};
use std::alloc::Global;
use value_bytes::Bytes;
use value_json::{Form, Refused, Tree, Truth, Word, only_keys, optional, required};
use value_requests::{CrossOrigin, Destination, LoadInit};

const KEYS: &[&str] = &[
    "kind",
    "url",
    "crossorigin",
    "nonce",
    "integrity",
    "parser",
    "referrer_policy",
];

const KIND: Word<'static, Destination> = Word {
    words: &[
        ("image", Destination::Image),
        ("audio", Destination::Audio),
        ("video", Destination::Video),
        ("style", Destination::Style),
        ("script", Destination::Script),
        ("font", Destination::Font),
        ("manifest", Destination::Manifest),
    ],
};

const SETTING: Word<'static, CrossOrigin> = Word {
    words: &[
        ("anonymous", CrossOrigin::Anonymous),
        ("use-credentials", CrossOrigin::UseCredentials),
    ],
};

/// What an element asks for that loads a resource. A parser inserted it where no key says
/// otherwise.
#[derive(Drop)]
pub(crate) struct LoadTable;

impl Form for LoadTable {
    type Out = LoadInit;

    ghost reads = { λ _. spec.load_of };

    fn read(&self, alloc: Global, tree: &Tree<'_, '_>) -> Result<LoadInit, Refused> {
        only_keys(alloc, tree, KEYS)?;
        let kind = required(alloc, tree, "kind", &KIND)?;
        let url = required(alloc, tree, "url", &TEMPLATE)?;
        let absent = CrossOrigin::Absent;
        let crossorigin = optional(alloc, tree, "crossorigin", absent, &SETTING)?;
        let nonce = optional(alloc, tree, "nonce", Bytes::new(alloc), &TEXT)?;
        let integrity = optional(alloc, tree, "integrity", Bytes::new(alloc), &TEXT)?;
        let parser = optional(alloc, tree, "parser", true, &Truth)?;
        let referrer_policy = policy(alloc, tree)?;
        Ok(LoadInit {
            kind,
            url,
            crossorigin,
            nonce,
            integrity,
            parser,
            referrer_policy,
        })
    }
}
