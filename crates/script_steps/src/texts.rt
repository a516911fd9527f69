// Texts that are templates, and the words for referrer policies.
ghost use Rattle.value_json.specs.Trees.{data_of};
ghost use Rattle.script_scenarios.specs.Templates.{is_template};
ghost use Rattle.value_json.specs.Gives.{Gives};
ghost use Rattle.script_steps.specs.Referring as spec;

use script_scenarios::is_template;
use std::alloc::Global;
use value_bytes::OutOfMemory;
use value_json::{AnyText, Refused, TextTest, TextThat, Tree, Word, optional};
use value_requests::ReferrerPolicy;

/// A template.
#[derive(Drop)]
pub(crate) struct Template;

impl TextTest for Template {
    ghost taken = { λ _. is_template };

    fn takes(&self, _alloc: Global, text: &str) -> Result<bool, OutOfMemory> {
        Ok(is_template(text.as_bytes()))
    }
}

/// A text that is a template.
pub(crate) const TEMPLATE: TextThat<Template> = TextThat { test: Template };

/// Any text.
pub(crate) const TEXT: TextThat<AnyText> = TextThat { test: AnyText };

const POLICY: Word<'static, ReferrerPolicy> = Word {
    words: &[
        ("", ReferrerPolicy::Empty),
        ("no-referrer", ReferrerPolicy::NoReferrer),
        (
            "no-referrer-when-downgrade",
            ReferrerPolicy::NoReferrerWhenDowngrade,
        ),
        ("same-origin", ReferrerPolicy::SameOrigin),
        ("origin", ReferrerPolicy::Origin),
        ("strict-origin", ReferrerPolicy::StrictOrigin),
        (
            "origin-when-cross-origin",
            ReferrerPolicy::OriginWhenCrossOrigin,
        ),
        (
            "strict-origin-when-cross-origin",
            ReferrerPolicy::StrictOriginWhenCrossOrigin,
        ),
        ("unsafe-url", ReferrerPolicy::UnsafeUrl),
    ],
};

// The referrer policy of a fetch or a load.
pub(crate) fn policy(alloc: Global, tree: &Tree<'_, '_>) -> Result<ReferrerPolicy, Refused>
    ensures { Gives result (spec.policy_of (data_of tree.now)) }
{
    let empty = ReferrerPolicy::Empty;
    optional(alloc, tree, "referrer_policy", empty, &POLICY)
}
