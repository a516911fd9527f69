// Which directive of a policy decides about a request (CSP 3, section 6.8).
ghost use Rattle.std.specs.Prelude.{◌≡◌, ◌∷◌, [], map, option_map};
ghost use Rattle.policy_csp.specs.Directives as spec;

use crate::compiled::CompiledDirective;
use policy_csp_match::SourceList;
use value_requests::{Destination, Directive};

// "get the effective directive for request".
pub(crate) fn effective_directive(destination: Destination) -> Directive
    ensures { result ≡ spec.effective_directive destination }
{
    match destination {
        Destination::Fetch => Directive::ConnectSrc,
        Destination::Image => Directive::ImgSrc,
        Destination::Audio | Destination::Video => Directive::MediaSrc,
        Destination::Font => Directive::FontSrc,
        Destination::Manifest => Directive::ManifestSrc,
        Destination::Style => Directive::StyleSrcElem,
        Destination::Script => Directive::ScriptSrcElem,
    }
}

// The source list of the directive of a name, where there is one.
fn sources_named<'a>(directives: &'a [CompiledDirective], name: &[u8]) -> Option<&'a SourceList>
    ensures { option_map (λ sources. sources.now) result ≡ spec.sources_named name.now directives.now }
{
    for directive in directives {
        if directive.name.as_slice() == name {
            return Some(&directive.sources);
        }
    }
    None
}

// The source list of the first of these names that there is a directive of.
fn first_named<'a>(directives: &'a [CompiledDirective], names: &[&[u8]]) -> Option<&'a SourceList>
    ensures { option_map (λ sources. sources.now) result
        ≡ spec.deciding_sources (map (λ name. name.now) names.now) directives.now }
{
    for name in names {
        let sources = sources_named(directives, name);
        if sources.is_some() {
            return sources;
        }
    }
    None
}

// The source list that decides in the place of an effective directive, where there is one.
pub(crate) fn deciding_sources<'a>(
    directives: &'a [CompiledDirective],
    directive: Directive,
) -> Option<&'a SourceList>
    ensures { option_map (λ sources. sources.now) result
        ≡ spec.deciding_sources (spec.fallback_list directive) directives.now }
{
    let own = directive.name().as_bytes();
    match directive {
        Directive::StyleSrcElem => first_named(directives, &[own, b"style-src", b"default-src"]),
        Directive::ScriptSrcElem => first_named(directives, &[own, b"script-src", b"default-src"]),
        _ => first_named(directives, &[own, b"default-src"]),
    }
}
