// A JSON text as a tree in one flat list, which takes less memory than the tree of `serde_json` and means the same;
// values read from such a tree by tables of keys, or the first refused place.
#![tactic(auto)]

mod fields;
mod form;
mod items;
mod lists;
mod numbers;
mod refused;
mod text;
mod texts;
mod tree;
mod words;

pub use fields::{Given, Number, Truth, only_keys, optional, required};
pub use form::{Form, at_segment, refused_at, refused_here, refused_under};
pub use items::Trees;
pub use json::Scratch;
pub use lists::{ItemsOf, ListOf, PairOf, item_at};
pub use refused::Refused;
pub use text::JsonText;
pub use texts::{AnyText, HeaderValue, TextTest, TextThat, Token};
pub use tree::Tree;
pub use words::Word;
