// Content security policies as texts: the policies of a header value, their directives and words.
#![tactic(auto)]

mod counting;
mod parse;
mod policy;
mod word_list;

pub use counting::count_policies;
pub use parse::parse_policies;
pub use policy::{Directive, Directives, Policies, Policy};
pub use word_list::{Words, first_word};
