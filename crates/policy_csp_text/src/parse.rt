// Reads the policies of a header value (CSP 3, section 2.2 "parse a serialized CSP").
ghost use Rattle.std.specs.Prelude.{◌≡◌, filter, map, option_map, IfOk, OnOk};
ghost use Rattle.std.specs.List.{list_all};
ghost use Rattle.policy_csp_text.specs.Policies as spec;
ghost use Rattle.policy_csp_text.specs.Private.Collecting.{AreNames, directives_in, with_found};

use crate::policy::{Directive, Directives, Policies, Policy};
use crate::word_list::{Words, first_word};
use std::alloc::Global;
use std::collections::BTreeSet;
use value_bytes::{OutOfMemory, in_lower_case};
use value_text::parts_between;

// Whether all bytes are ASCII.
pub(crate) fn are_ascii(text: &[u8]) -> bool
    ensures { result ≡ list_all spec.is_ascii text.now }
{
    text.iter().all(|byte| *byte < 128)
}

// The directive of a token, where it is one. The copy of a short name takes no memory of its own.
fn directive_of(alloc: Global, token: &[u8]) -> Result<Option<Directive>, OutOfMemory>
    ensures { IfOk result (λ directive. directive ≡ spec.directive_of token.now) }
{
    if !are_ascii(token) {
        return Ok(None);
    }
    match first_word(token) {
        None => Ok(None),
        Some((name, values)) => Ok(Some(Directive {
            name: in_lower_case(alloc, name)?.copy(alloc)?,
            words: Words::of(alloc, values)?,
        })),
    }
}

// The name of the directive of a token, where it is one.
fn name_of(alloc: Global, token: &[u8]) -> Result<Option<Vec<u8>>, OutOfMemory>
    ensures { IfOk result (λ name. option_map (λ bytes. bytes.items) name
        ≡ option_map (λ directive. directive.name) (spec.directive_of token.now)) }
{
    if !are_ascii(token) {
        return Ok(None);
    }
    match first_word(token) {
        None => Ok(None),
        Some((name, _)) => Ok(Some(in_lower_case(alloc, name)?.into_vec()?)),
    }
}

// Adds a token with a directive, unless there is one of its name. The names that there are, are found in a set, so that
// many cost no more than they are long.
fn add<'a>(
    alloc: Global,
    firsts: &mut Vec<&'a [u8]>,
    names: &mut BTreeSet<Vec<u8>>,
    token: &'a [u8],
) -> Result<(), OutOfMemory>
    requires { AreNames (λ key. key.items) names.old.keys (directives_in (map (λ first. first.now) firsts.old.items)) }
    ensures added { OnOk result (directives_in (map (λ first. first.now) firsts.new.items)
        ≡ with_found (spec.directive_of token.now) (directives_in (map (λ first. first.now) firsts.old.items))) }
    ensures names { OnOk result (AreNames (λ key. key.items) names.new.keys
        (directives_in (map (λ first. first.now) firsts.new.items))) }
{
    let Some(name) = name_of(alloc, token)? else {
        return Ok(());
    };
    if names.insert(name)? {
        firsts.push(token)?;
    }
    Ok(())
}

// The tokens of the first directive of each name.
#[tactic(auto, using(crate::proofs::CollectingLemmas::found_step, crate::proofs::CollectingLemmas::new_all))]
fn first_tokens<'a>(alloc: Global, tokens: &[&'a [u8]]) -> Result<Vec<&'a [u8]>, OutOfMemory>
    ensures { IfOk result (λ firsts. directives_in (map (λ first. first.now) firsts.items)
        ≡ spec.first_of_each (directives_in (map (λ token. token.now) tokens.now))) }
{
    let mut firsts = Vec::new(alloc);
    let mut names = BTreeSet::new(alloc);
    for token in tokens {
        add(alloc, &mut firsts, &mut names, *token)?;
    }
    Ok(firsts)
}

// Those of the tokens between the semicolons of a text.
fn first_between<'a>(alloc: Global, text: &'a [u8]) -> Result<Vec<&'a [u8]>, OutOfMemory>
    ensures { IfOk result (λ firsts. directives_in (map (λ first. first.now) firsts.items)
        ≡ spec.directives_of text.now) }
{
    let tokens = parts_between(alloc, text, b';')?;
    first_tokens(alloc, tokens.as_slice())
}

// The directives of tokens.
fn directives_in(alloc: Global, tokens: &[&[u8]]) -> Result<Directives, OutOfMemory>
    ensures { IfOk result (λ directives. directives ≡ directives_in (map (λ token. token.now) tokens.now)) }
{
    let mut directives = Directives::new(alloc);
    for token in tokens {
        if let Some(directive) = directive_of(alloc, token)? {
            directives.push(directive)?;
        }
    }
    Ok(directives)
}

// "parse a serialized CSP": the directives between the semicolons of a text. The set of their names is gone before the
// first of them is made, since both take many times what the text is long.
fn directives_of(alloc: Global, text: &[u8]) -> Result<Directives, OutOfMemory>
    ensures { IfOk result (λ directives. directives ≡ spec.directives_of text.now) }
{
    let firsts = first_between(alloc, text)?;
    directives_in(alloc, firsts.as_slice())
}

// The policies of texts, without those that have no directive.
fn policies_of(alloc: Global, texts: &[&[u8]], enforced: bool) -> Result<Policies, OutOfMemory>
    ensures { IfOk result (λ policies. policies
        ≡ filter spec.has_directives (map (spec.policy_of enforced) (map (λ text. text.now) texts.now))) }
{
    let mut policies = Policies::new(alloc);
    for text in texts {
        let directives = directives_of(alloc, text)?;
        if !directives.is_empty() {
            policies.push(Policy {
                enforced,
                directives,
            })?;
        }
    }
    Ok(policies)
}

/// The policies of the value of a Content-Security-Policy or Content-Security-Policy-Report-Only
/// header, in order (CSP 3, section 2.2, "parse a response's Content Security Policies"). The value is
/// cut at commas, each policy at semicolons; the first directive of a name counts, a directive that is
/// not ASCII is skipped, and a policy without directives is dropped.
pub fn parse_policies(alloc: Global, value: &[u8], enforced: bool) -> Result<Policies, OutOfMemory>
    ensures { IfOk result (λ policies. policies ≡ spec.policies_of enforced value.now) }
{
    let texts = parts_between(alloc, value, b',')?;
    policies_of(alloc, texts.as_slice(), enforced)
}
