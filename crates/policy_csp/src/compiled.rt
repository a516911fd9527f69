// The policies of a document, ready to be checked: their words are source expressions.
ghost use Rattle.std.specs.Prelude.{◌≡◌, length};

use policy_csp_match::SourceList;
use policy_csp_text::Policies;
use std::marker::Model;
use std::snapshot::Snapshot;
use value_bytes::{Bytes, Items};

/// A directive with its words read as source expressions.
#[derive(Drop)]
pub(crate) struct CompiledDirective {
    pub(crate) name: Bytes,
    pub(crate) sources: SourceList,
}

/// A policy with the words of its directives read as source expressions: of those that are asked for, at most eleven.
#[derive(Drop)]
pub(crate) struct CompiledPolicy {
    pub(crate) enforced: bool,
    pub(crate) directives: Items<CompiledDirective>,
}

/// The policies of a document, each word of which was read once as a source expression. Seen as the
/// policies that it was made of.
#[derive(Drop)]
pub struct Compiled {
    pub(crate) policies: Items<CompiledPolicy>,
    pub(crate) made_of: Snapshot<Policies>,
}

impl Model for Compiled {
    ghost use Rattle.std.specs.Prelude.{◌≡◌, ◌<◌, ◌^◌, List, length, map};
    ghost use Rattle.policy_csp.specs.Private.Kept.{kept_policy};
    ghost use Rattle.policy_csp_text.specs.declared.policy.Policy.{Policy};

    ghost Value = { List Policy };

    ghost view = { λ compiled. compiled.made_of.value };

    ghost invariant = { λ compiled. (compiled.policies ≡ map kept_policy compiled.made_of.value)
        × (length compiled.policies < 2 ^ 32) };
}

impl Compiled {
    /// How many policies there are. It takes no memory.
    pub fn len(&self) -> usize
        ensures { result ≡ length self.now }
    {
        self.policies.len()
    }
}
