// What a text of a scenario has to be.
ghost use Rattle.script_scenarios.specs.Texts as spec;
ghost use Rattle.value_requests.specs.OriginTexts.{is_origin_text};

use std::alloc::Global;
use value_bytes::OutOfMemory;
use value_json::TextTest;
use value_requests::read_origin;
use value_text::is_value;

/// The value of a Cookie header: a header value of 1 to 4,096 bytes.
#[derive(Drop)]
pub(crate) struct CookieValue;

impl TextTest for CookieValue {
    ghost taken = { λ _. spec.is_cookie_value };

    fn takes(&self, _alloc: Global, text: &str) -> Result<bool, OutOfMemory> {
        Ok(1 <= text.len() && text.len() <= 4096 && is_value(text.as_bytes()))
    }
}

/// The serialized origin of an http or https URL.
#[derive(Drop)]
pub(crate) struct OriginText;

impl TextTest for OriginText {
    ghost taken = { λ _. is_origin_text };

    fn takes(&self, alloc: Global, text: &str) -> Result<bool, OutOfMemory> {
        Ok(read_origin(alloc, text.as_bytes())?.is_some())
    }
}
