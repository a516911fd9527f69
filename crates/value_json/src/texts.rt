// The form of texts that pass a test, such as tokens and header values.
ghost use Rattle.std.specs.Prelude.{◌≡◌, Bool, List, ℕ, IfOk};
ghost use Rattle.value_text.specs.Texts.{Text};
ghost use Rattle.value_text.specs.Tokens.{is_token};
ghost use Rattle.value_text.specs.Values.{is_header_value};
ghost use Rattle.value_json.specs.Reading.{any, text_that};

use crate::form::{Form, refused_here};
use crate::refused::Refused;
use crate::tree::Tree;
use std::alloc::Global;
use value_bytes::{Bytes, OutOfMemory};
use value_text::{is_token, is_value};

/// A test that a text has to pass.
pub trait TextTest {
    /// The texts that pass.
    ghost taken: { Self → Text → Bool };

    /// Whether the text passes. `OutOfMemory` tells want of memory alone.
    fn takes(&self, alloc: Global, text: &str) -> Result<bool, OutOfMemory>
        ensures { IfOk result (λ takes. takes ≡ taken self.now text.now) };
}

/// A text that passes a test, as its bytes. Any other text, and any other value, is refused at its
/// own place.
#[derive(Drop)]
pub struct TextThat<T> {
    pub test: T,
}

impl<T: TextTest> Form for TextThat<T> {
    type Out = Bytes;

    ghost reads = { λ form. text_that (T.taken form.test) };

    fn read(&self, alloc: Global, tree: &Tree<'_, '_>) -> Result<Bytes, Refused> {
        let Some(text) = tree.as_str() else {
            return refused_here(alloc);
        };
        if self.test.takes(alloc, text)? {
            Ok(Bytes::of(alloc, text.as_bytes())?)
        } else {
            refused_here(alloc)
        }
    }
}

/// Any text.
#[derive(Drop)]
pub struct AnyText;

impl TextTest for AnyText {
    ghost taken = { λ _. any };

    fn takes(&self, _alloc: Global, _text: &str) -> Result<bool, OutOfMemory> {
        Ok(true)
    }
}

/// A token, as a method and the name of a header are (RFC 9110, sections 5.1 and 9.1).
#[derive(Drop)]
pub struct Token;

impl TextTest for Token {
    ghost taken = { λ _. is_token };

    fn takes(&self, _alloc: Global, text: &str) -> Result<bool, OutOfMemory> {
        Ok(is_token(text.as_bytes()))
    }
}

/// A header value (Fetch, section 2.2.2).
#[derive(Drop)]
pub struct HeaderValue;

impl TextTest for HeaderValue {
    ghost taken = { λ _. is_header_value };

    fn takes(&self, _alloc: Global, text: &str) -> Result<bool, OutOfMemory> {
        Ok(is_value(text.as_bytes()))
    }
}
