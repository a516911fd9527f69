// The table of what a fetch asks for.
ghost use Rattle.value_json.specs.Trees.{data_of};
ghost use Rattle.value_json.specs.Gives.{Gives};
ghost use Rattle.script_steps.specs.Fetches as spec;

use crate::texts::{TEMPLATE, TEXT, Template, policy};
use std::alloc::Global;
use value_bytes::{Bytes, Items};
use value_json::{
    AnyText, Form, Given, ListOf, PairOf, Refused, TextThat, Tree, Truth, Word, only_keys,
    optional, required,
};
use value_requests::{Credentials, Init, Mode, Pair, Pairs, RedirectMode, ReferrerPolicy};

const KEYS: &[&str] = &[
    "url",
    "method",
    "mode",
    "credentials",
    "redirect",
    "headers",
    "body",
    "referrer",
    "referrer_policy",
    "integrity",
    "upload",
];

const MODE: Word<'static, Mode> = Word {
    words: &[
        ("cors", Mode::Cors),
        ("no-cors", Mode::NoCors),
        ("same-origin", Mode::SameOrigin),
        ("navigate", Mode::Navigate),
    ],
};

const CREDENTIALS: Word<'static, Credentials> = Word {
    words: &[
        ("omit", Credentials::Omit),
        ("same-origin", Credentials::SameOrigin),
        ("include", Credentials::Include),
    ],
};

const REDIRECT: Word<'static, RedirectMode> = Word {
    words: &[
        ("follow", RedirectMode::Follow),
        ("error", RedirectMode::Error),
        ("manual", RedirectMode::Manual),
    ],
};

const HEADER: PairOf<TextThat<AnyText>, TextThat<Template>> = PairOf {
    first: TEXT,
    second: TEMPLATE,
};

const HEADERS: ListOf<HeaderPair> = ListOf {
    most: 64,
    item: HeaderPair,
};

const BODY: Given<TextThat<Template>> = Given { form: TEMPLATE };

// Whether the referrer is the client.
const REFERRER: Word<'static, bool> = Word {
    words: &[("client", true), ("none", false)],
};

// A name and a value.
#[derive(Drop)]
struct HeaderPair;

impl Form for HeaderPair {
    type Out = Pair;

    ghost reads = { λ _. spec.header_of };

    fn read(&self, alloc: Global, tree: &Tree<'_, '_>) -> Result<Pair, Refused> {
        let (name, value) = HEADER.read(alloc, tree)?;
        Ok(Pair { name, value })
    }
}

// How the request is made: its mode, its credentials mode and its redirect mode.
fn manner(alloc: Global, tree: &Tree<'_, '_>) -> Result<(Mode, Credentials, RedirectMode), Refused>
    ensures { Gives result (spec.manner_of (data_of tree.now)) }
{
    let mode = optional(alloc, tree, "mode", Mode::Cors, &MODE)?;
    let same_origin = Credentials::SameOrigin;
    let credentials = optional(alloc, tree, "credentials", same_origin, &CREDENTIALS)?;
    let redirect = optional(alloc, tree, "redirect", RedirectMode::Follow, &REDIRECT)?;
    Ok((mode, credentials, redirect))
}

// What is sent: headers, and a body.
fn content(alloc: Global, tree: &Tree<'_, '_>) -> Result<(Pairs, Option<Bytes>), Refused>
    ensures { Gives result (spec.content_of (data_of tree.now)) }
{
    let headers = optional(alloc, tree, "headers", Items::new(alloc), &HEADERS)?;
    let body = optional(alloc, tree, "body", None, &BODY)?;
    Ok((headers, body))
}

// Whether its referrer is the client, and its referrer policy.
fn referring(alloc: Global, tree: &Tree<'_, '_>) -> Result<(bool, ReferrerPolicy), Refused>
    ensures { Gives result (spec.referring_of (data_of tree.now)) }
{
    let client = optional(alloc, tree, "referrer", true, &REFERRER)?;
    let policy = policy(alloc, tree)?;
    Ok((client, policy))
}

/// What a fetch asks for. What no key says is as `fetch` has it by itself.
#[derive(Drop)]
pub(crate) struct FetchTable;

impl Form for FetchTable {
    type Out = Init;

    ghost reads = { λ _. spec.fetch_of };

    fn read(&self, alloc: Global, tree: &Tree<'_, '_>) -> Result<Init, Refused> {
        only_keys(alloc, tree, KEYS)?;
        let url = required(alloc, tree, "url", &TEMPLATE)?;
        let get = Bytes::of(alloc, b"GET")?;
        let method = optional(alloc, tree, "method", get, &TEXT)?;
        let (mode, credentials, redirect) = manner(alloc, tree)?;
        let (headers, body) = content(alloc, tree)?;
        let (client_referrer, referrer_policy) = referring(alloc, tree)?;
        let integrity = optional(alloc, tree, "integrity", Bytes::new(alloc), &TEXT)?;
        let upload = optional(alloc, tree, "upload", false, &Truth)?;
        Ok(Init {
            url,
            method,
            mode,
            credentials,
            redirect,
            headers,
            body,
            client_referrer,
            referrer_policy,
            integrity,
            upload,
        })
    }
}
