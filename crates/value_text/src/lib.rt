// The words on texts that every layer shares.
#![tactic(auto)]

mod among;
mod base64;
mod digits;
mod find;
mod fold;
mod mime;
mod split;
mod token;
mod trim;
mod value;
mod wildcard;

pub use among::{is_among, is_among_fold};
pub use base64::is_base64_value;
pub use digits::{digits_at_most, is_digits, parse_digits};
pub use find::{after_byte, before_byte, position_of};
pub use fold::eq_fold;
pub use mime::{essence_is, written_essence};
pub use split::{parts_between, words};
pub use token::is_token;
pub use trim::{trim_http, trim_tab_or_space};
pub use value::is_value;
pub use wildcard::{AUTHORIZATION, is_non_wildcard_name, is_wildcard};
