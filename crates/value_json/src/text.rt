// Reads a JSON text (RFC 8259), and refuses what `serde_json` does.
ghost use Rattle.std.specs.Prelude.{◌≡◌, IfOk, map, option_map};
ghost use Rattle.json.specs.Tape.{node_token};
ghost use Rattle.serde_json.specs.Read.{read};
ghost use Rattle.value_json.specs.Private.Taken as spec;
ghost use Rattle.value_json.specs.Trees.{data_of};

use crate::numbers::has_value;
use crate::tree::Tree;
use json::{Error, Node, Scratch, Tape};
use std::alloc::Global;
use std::marker::Model;
use value_bytes::OutOfMemory;

// How deep arrays and objects may nest, which is what `serde_json` takes.
const DEEPEST: usize = 127;

/// A whole JSON text (RFC 8259). It is seen as its tokens.
#[derive(Drop)]
pub struct JsonText<'a> {
    tape: Tape<'a>,
}

impl<'a> Model for JsonText<'a> {
    ghost use Rattle.std.specs.Prelude.{List};
    ghost use Rattle.json.specs.Token.{Token, tokens_code};
    ghost use Rattle.value_json.specs.Private.Trees.{IsTree};

    ghost Value = { List Token };

    ghost coded = { tokens_code };

    ghost view = { λ text. text.tape };

    ghost invariant = { λ text. IsTree text.tape };
}

impl<'a> JsonText<'a> {
    /// Reads a text, with a scratch that is lent for it. There is none exactly where the text is not JSON, where arrays
    /// and objects nest more than 127 deep, and where a number is too large for a float of 64 bits. `OutOfMemory` tells
    /// want of memory, and a text of more than 4,294,967,040 bytes.
    pub fn parse(
        alloc: Global,
        text: &'a str,
        scratch: &'a mut Scratch,
    ) -> Result<Option<JsonText<'a>>, OutOfMemory>
        ensures { IfOk result (λ found. option_map data_of found ≡ read text.now) }
    {
        match Tape::parse(text, scratch, Vec::new(alloc)) {
            Ok(tape) => if is_taken(tape.nodes()) {
                Ok(Some(JsonText { tape }))
            } else {
                Ok(None)
            },
            Err(Error::Invalid) => Ok(None),
            Err(_) => Err(OutOfMemory),
        }
    }

    /// The value that the text is.
    pub fn root(&self) -> Tree<'_, 'a>
        ensures { result ≡ self.now }
    {
        Tree::of(self.tape.root())
    }
}

// Whether none of the nodes nests too deep, and each number has a value.
fn is_taken(nodes: &[Node<'_>]) -> bool
    ensures { result ≡ spec.is_taken 0 (map node_token nodes.now) }
{
    let mut deep = 0;
    for node in nodes {
        match *node {
            Node::Object(_) | Node::Array(_) => {
                if deep == DEEPEST {
                    return false;
                }
                deep += 1;
            }
            Node::EndObject | Node::EndArray => deep = deep.saturating_sub(1),
            Node::Number(text) => {
                if !has_value(text) {
                    return false;
                }
            }
            Node::Key(_) | Node::String(_) | Node::Bool(_) | Node::Null => {}
        }
    }
    true
}
