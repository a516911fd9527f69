// What a caller asks for, a `fetch` or a load, made up of texts and choices one by one.
ghost use Rattle.std.specs.Prelude.{◌≡◌, IfOk, OnErr};
ghost use Rattle.c_fetch.specs.Asked as spec;

use crate::fetch_init::AskedFetch;
use crate::load_init::AskedLoad;
use std::alloc::Global;
use value_bytes::{Bytes, OutOfMemory};
use value_requests::{Credentials, CrossOrigin, Destination, Mode, RedirectMode, ReferrerPolicy};

/// What is asked for: a `fetch`, or a load.
#[derive(Drop)]
pub enum Asked {
    Fetch(AskedFetch),
    Load(AskedLoad),
}

/// A choice of what is asked for. A `fetch` has no CORS settings and no parser, and a load has none of the others but a
/// referrer policy.
#[derive(Clone, Copy, Debug, PartialEq, Eq)]
pub enum Choice {
    Mode(Mode),
    Credentials(Credentials),
    Redirect(RedirectMode),
    ClientReferrer(bool),
    Policy(ReferrerPolicy),
    Upload(bool),
    CrossOrigin(CrossOrigin),
    Parser(bool),
}

/// A text of what is asked for. A `fetch` has no nonce, and a load no body.
#[derive(Clone, Copy, Debug, PartialEq, Eq)]
pub enum Words {
    Body,
    Integrity,
    Nonce,
}

impl Asked {
    /// A `fetch` of a URL by a method: in mode cors, with credentials mode same-origin and redirect mode follow, the
    /// client as its referrer, and neither headers, body nor integrity metadata.
    pub fn fetch(alloc: Global, method: &[u8], url: &[u8]) -> Result<Asked, OutOfMemory>
        ensures { IfOk result (λ asked. asked ≡ spec.fetch_of method.now url.now) }
    {
        Ok(Asked::Fetch(AskedFetch::new(alloc, method, url)?))
    }

    /// A load of a URL by an element of a kind other than `Fetch`: without the `crossorigin` attribute, nonce and
    /// integrity metadata, and not inserted by a parser.
    pub fn load(alloc: Global, kind: Destination, url: &[u8]) -> Result<Option<Asked>, OutOfMemory>
        ensures { IfOk result (λ asked. asked ≡ spec.load_of kind url.now) }
    {
        match AskedLoad::new(alloc, kind, url)? {
            None => Ok(None),
            Some(asked) => Ok(Some(Asked::Load(asked))),
        }
    }

    /// What it is for (Fetch, section 2.2.5, "destination").
    pub fn destination(&self) -> Destination
        ensures { result ≡ spec.destination_of self.now }
    {
        match self {
            Asked::Fetch(_) => Destination::Fetch,
            Asked::Load(asked) => asked.init.kind,
        }
    }

    /// Adds a header to a `fetch`, its value without HTTP whitespace at its ends (Fetch, section 2.2.2, "normalize"),
    /// and tells whether it is a `fetch`. What is no header is a fault of the request. Where memory is refused all is
    /// as it was.
    pub fn add_header(
        &mut self,
        alloc: Global,
        name: &[u8],
        value: &[u8],
    ) -> Result<bool, OutOfMemory>
        ensures ok { IfOk result (λ added.
            spec.header_added name.now value.now self.old ≡ spec.changed added self.new) }
        ensures err { OnErr result (self.new ≡ self.old) }
    {
        match self {
            Asked::Fetch(asked) => {
                asked.add_header(alloc, name, value)?;
                Ok(true)
            }
            Asked::Load(_) => Ok(false),
        }
    }

    /// Sets a text, and tells whether what is asked for has one of the kind. Where memory is refused all is as it was.
    pub fn set_text(
        &mut self,
        alloc: Global,
        words: Words,
        text: &[u8],
    ) -> Result<bool, OutOfMemory>
        ensures ok { IfOk result (λ has. spec.text_set words text.now self.old ≡ spec.changed has self.new) }
        ensures err { OnErr result (self.new ≡ self.old) }
    {
        let text = Bytes::of(alloc, text)?;
        match self {
            Asked::Fetch(asked) => Ok(asked.set_text(words, text)),
            Asked::Load(asked) => Ok(asked.set_text(words, text)),
        }
    }

    /// Makes a choice, and tells whether what is asked for has it.
    pub fn set(&mut self, choice: Choice) -> bool
        ensures { spec.chosen choice self.old ≡ spec.changed result self.new }
    {
        match self {
            Asked::Fetch(asked) => asked.set(choice),
            Asked::Load(asked) => asked.set(choice),
        }
    }
}
