// What a script asks of `fetch`, while it is made up.
ghost use Rattle.std.specs.Prelude.{◌≡◌, IfOk, OnErr, OnOk};

use crate::asked::{Choice, Words};
use std::alloc::Global;
use std::marker::Model;
use value_bytes::{Bytes, OutOfMemory};
use value_requests::{Credentials, Init, Mode, Pair, Pairs, RedirectMode, ReferrerPolicy};
use value_text::trim_http;

/// How many headers are too many for a request: it is want of memory.
const TOO_MANY: usize = 4_294_967_295;

/// What a script asks of `fetch`. Seen as its init.
#[derive(Drop)]
pub struct AskedFetch {
    pub(crate) init: Init,
}

impl Model for AskedFetch {
    ghost use Rattle.std.specs.Prelude.{◌<◌, ◌^◌, length};
    ghost use Rattle.value_requests.specs.declared.init.Init.{Init};

    ghost Value = { Init };

    ghost view = { λ asked. asked.init };

    ghost invariant = { λ asked. length asked.init.headers < 2 ^ 32 };
}

impl AskedFetch {
    ghost use Rattle.c_fetch.specs.Asked as spec;

    // A `fetch` of a URL by a method.
    pub(crate) fn new(alloc: Global, method: &[u8], url: &[u8]) -> Result<AskedFetch, OutOfMemory>
        ensures { IfOk result (λ asked. asked ≡ spec.init_of method.now url.now) }
    {
        Ok(AskedFetch {
            init: Init {
                url: Bytes::of(alloc, url)?,
                method: Bytes::of(alloc, method)?,
                mode: Mode::Cors,
                credentials: Credentials::SameOrigin,
                redirect: RedirectMode::Follow,
                headers: Pairs::new(alloc),
                body: None,
                client_referrer: true,
                referrer_policy: ReferrerPolicy::Empty,
                integrity: Bytes::new(alloc),
                upload: false,
            },
        })
    }

    // Adds a header.
    pub(crate) fn add_header(
        &mut self,
        alloc: Global,
        name: &[u8],
        value: &[u8],
    ) -> Result<(), OutOfMemory>
        ensures ok { OnOk result (self.new ≡ spec.with_header name.now value.now self.old) }
        ensures err { OnErr result (self.new ≡ self.old) }
    {
        let pair = Pair {
            name: Bytes::of(alloc, name)?,
            value: Bytes::of(alloc, trim_http(value))?,
        };
        if self.init.headers.len() >= TOO_MANY {
            return Err(OutOfMemory);
        }
        self.init.headers.push(pair)
    }

    // Sets a text, if it has one of the kind.
    pub(crate) fn set_text(&mut self, words: Words, text: Bytes) -> bool
        ensures { spec.init_text words text self.old ≡ spec.changed result self.new }
    {
        match words {
            Words::Body => self.init.body = Some(text),
            Words::Integrity => self.init.integrity = text,
            Words::Nonce => return false,
        }
        true
    }

    // Makes a choice, if it has it.
    pub(crate) fn set(&mut self, choice: Choice) -> bool
        ensures { spec.init_chosen choice self.old ≡ spec.changed result self.new }
    {
        match choice {
            Choice::Mode(mode) => self.init.mode = mode,
            Choice::Credentials(credentials) => self.init.credentials = credentials,
            Choice::Redirect(redirect) => self.init.redirect = redirect,
            Choice::ClientReferrer(client) => self.init.client_referrer = client,
            Choice::Policy(policy) => self.init.referrer_policy = policy,
            Choice::Upload(upload) => self.init.upload = upload,
            Choice::CrossOrigin(_) | Choice::Parser(_) => return false,
        }
        true
    }
}
