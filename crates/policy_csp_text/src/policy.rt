// Policies and their directives (CSP 3, sections 2.2 and 2.3).
use crate::word_list::Words;
use value_bytes::{Bytes, Items};

/// A directive (CSP 3, section 2.3): its name, in lower case, and the words of its value.
#[derive(Drop)]
pub struct Directive {
    pub name: Bytes,
    pub words: Words,
}

/// A directive set, in order; no two directives have equal names.
pub type Directives = Items<Directive>;

/// A policy (CSP 3, section 2.2). `enforced` is its disposition: enforced, or report-only.
#[derive(Drop)]
pub struct Policy {
    pub enforced: bool,
    pub directives: Directives,
}

/// A list of policies, in order.
pub type Policies = Items<Policy>;
