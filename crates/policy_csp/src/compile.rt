// Reads the words of a document's policies as source expressions, once, for the directives that requests ask for.
ghost use Rattle.std.specs.Prelude.{◌≡◌, ◌<◌, ◌^◌, filter, length, map, IfOk};
ghost use Rattle.policy_csp.specs.Private.Kept as kept;
ghost use Rattle.policy_csp.specs.Reading as spec;

use crate::compiled::{Compiled, CompiledDirective, CompiledPolicy};
use policy_csp_match::{SourceList, parse_source};
use policy_csp_text::{Directive, Policies, Policy, Words, first_word};
use std::alloc::Global;
use std::snapshot::Snapshot;
use value_bytes::{Items, OutOfMemory};
use value_text::is_among;

// The names that are asked for: those of all fallback lists, and that of the directive that upgrades.
const ASKED_NAMES: [&[u8]; 11] = [
    b"connect-src",
    b"img-src",
    b"media-src",
    b"font-src",
    b"manifest-src",
    b"style-src-elem",
    b"style-src",
    b"script-src-elem",
    b"script-src",
    b"default-src",
    b"upgrade-insecure-requests",
];

// Whether a directive of this name is kept: whether the name is ever asked for.
fn is_asked_for(name: &[u8]) -> bool
    ensures { result ≡ kept.is_asked_for name.now }
{
    is_among(&ASKED_NAMES, name)
}

// For how many source expressions room is made: one for each word. No memory has room for more than a number can say.
fn room_for(text: &[u8]) -> usize {
    let mut count: usize = 0;
    let mut left = text;
    while let Some((_, rest)) = first_word(left) {
        count = count.saturating_add(1);
        left = rest;
    }
    count
}

// What each of the words is.
fn source_list(alloc: Global, words: &Words) -> Result<SourceList, OutOfMemory>
    ensures { IfOk result (λ sources. sources ≡ spec.source_list words.now) }
{
    let mut left = words.as_text();
    let mut sources = SourceList::with_room(alloc, room_for(left), left.len())?;
    while let Some((word, rest)) = first_word(left) {
        sources = sources.with(&parse_source(word))?;
        left = rest;
    }
    Ok(sources)
}

// A directive with its source list.
fn read_directive(alloc: Global, directive: &Directive) -> Result<CompiledDirective, OutOfMemory>
    ensures { IfOk result (λ read. read ≡ spec.read_directive directive.now) }
{
    Ok(CompiledDirective {
        name: directive.name.copy(alloc)?,
        sources: source_list(alloc, &directive.words)?,
    })
}

// The directives that are asked for, with their source lists. A policy may have very many others, which decide nothing
// and are not kept.
fn read_directives(
    alloc: Global,
    directives: &[Directive],
) -> Result<Items<CompiledDirective>, OutOfMemory>
    ensures { IfOk result (λ read. read ≡ map spec.read_directive (filter kept.is_kept directives.now)) }
{
    let mut read = Items::new(alloc);
    for directive in directives {
        if is_asked_for(directive.name.as_slice()) {
            read.push(read_directive(alloc, directive)?)?;
        }
    }
    Ok(read)
}

// A policy whose directives that are asked for have their source lists.
fn read_policy(alloc: Global, policy: &Policy) -> Result<CompiledPolicy, OutOfMemory>
    ensures { IfOk result (λ read. read ≡ kept.kept_policy policy.now) }
{
    Ok(CompiledPolicy {
        enforced: policy.enforced,
        directives: read_directives(alloc, policy.directives.as_slice())?,
    })
}

// The policies whose directives that are asked for have their source lists.
fn read_policies(alloc: Global, policies: &[Policy]) -> Result<Items<CompiledPolicy>, OutOfMemory>
    ensures { IfOk result (λ read. read ≡ map kept.kept_policy policies.now) }
{
    let mut read = Items::new(alloc);
    for policy in policies {
        read.push(read_policy(alloc, policy)?)?;
    }
    Ok(read)
}

impl Compiled {
    /// The policies of a document, ready for checks: each word is read as a source expression now, and
    /// never again. There are fewer than 4,294,967,296 policies. It is seen as the policies that it was
    /// made of.
    pub fn of(alloc: Global, policies: &Policies) -> Result<Compiled, OutOfMemory>
        requires { length policies.now < 2 ^ 32 }
        ensures { IfOk result (λ compiled. compiled ≡ policies.now) }
    {
        Ok(Compiled {
            policies: read_policies(alloc, policies.as_slice())?,
            made_of: Snapshot::of(policies),
        })
    }
}
