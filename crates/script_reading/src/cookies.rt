// The table of cookies.
ghost use Rattle.script_reading.specs.Scenarios as spec;

use crate::texts::{CookieValue, OriginText};
use std::alloc::Global;
use value_json::{Form, PairOf, Refused, TextThat, Tree};
use value_requests::Cookie;

const COOKIE: PairOf<TextThat<OriginText>, TextThat<CookieValue>> = PairOf {
    first: TextThat { test: OriginText },
    second: TextThat { test: CookieValue },
};

/// A serialized origin, and the value of the Cookie header that goes to it.
#[derive(Drop)]
pub(crate) struct CookiePair;

impl Form for CookiePair {
    type Out = Cookie;

    ghost reads = { λ _. spec.cookie_of };

    fn read(&self, alloc: Global, tree: &Tree<'_, '_>) -> Result<Cookie, Refused> {
        let (origin, value) = COOKIE.read(alloc, tree)?;
        Ok(Cookie { origin, value })
    }
}
