// What an element asks of a load, while it is made up.
ghost use Rattle.std.specs.Prelude.{◌≡◌, IfOk};

use crate::asked::{Choice, Words};
use std::alloc::Global;
use std::marker::Model;
use value_bytes::{Bytes, OutOfMemory};
use value_requests::{CrossOrigin, Destination, LoadInit, ReferrerPolicy};

/// What an element asks for that loads a resource. Seen as its init.
#[derive(Drop)]
pub struct AskedLoad {
    pub(crate) init: LoadInit,
}

impl Model for AskedLoad {
    ghost use Rattle.std.specs.Prelude.{◌≢◌};
    ghost use Rattle.value_requests.specs.declared.init.LoadInit.{LoadInit};

    ghost Value = { LoadInit };

    ghost use Rattle.value_requests.specs.declared.policy.Destination.TheVariants as destination;

    ghost view = { λ asked. asked.init };

    ghost invariant = { λ asked. asked.init.kind ≢ destination.Fetch };
}

impl AskedLoad {
    ghost use Rattle.c_fetch.specs.Asked as spec;

    // A load of a URL by an element of a kind, if it is one.
    pub(crate) fn new(
        alloc: Global,
        kind: Destination,
        url: &[u8],
    ) -> Result<Option<AskedLoad>, OutOfMemory>
        ensures { IfOk result (λ asked. asked ≡ spec.load_init_of kind url.now) }
    {
        if kind == Destination::Fetch {
            return Ok(None);
        }
        Ok(Some(AskedLoad {
            init: LoadInit {
                kind,
                url: Bytes::of(alloc, url)?,
                crossorigin: CrossOrigin::Absent,
                nonce: Bytes::new(alloc),
                integrity: Bytes::new(alloc),
                parser: false,
                referrer_policy: ReferrerPolicy::Empty,
            },
        }))
    }

    // Sets a text, if it has one of the kind.
    pub(crate) fn set_text(&mut self, words: Words, text: Bytes) -> bool
        ensures { spec.load_text words text self.old ≡ spec.changed result self.new }
    {
        match words {
            Words::Integrity => self.init.integrity = text,
            Words::Nonce => self.init.nonce = text,
            Words::Body => return false,
        }
        true
    }

    // Makes a choice, if it has it.
    pub(crate) fn set(&mut self, choice: Choice) -> bool
        ensures { spec.load_chosen choice self.old ≡ spec.changed result self.new }
    {
        match choice {
            Choice::CrossOrigin(crossorigin) => self.init.crossorigin = crossorigin,
            Choice::Parser(parser) => self.init.parser = parser,
            Choice::Policy(policy) => self.init.referrer_policy = policy,
            Choice::Mode(_)
            | Choice::Credentials(_)
            | Choice::Redirect(_)
            | Choice::ClientReferrer(_)
            | Choice::Upload(_) => return false,
        }
        true
    }
}
