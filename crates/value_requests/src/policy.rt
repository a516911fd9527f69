// What a request is for (Fetch, section 2.2.5), the directive that goes by it, and violations of policies.
ghost use Rattle.std.specs.Prelude.{◌≡◌};
ghost use Rattle.value_requests.specs.Names.{destination_name, directive_name};

use value_bytes::Bytes;

/// What a request is for (Fetch, section 2.2.5): a `fetch`, or the load of a resource.
#[derive(Clone, Copy, Debug, PartialEq, Eq)]
pub enum Destination {
    Fetch,
    Image,
    Audio,
    Video,
    Style,
    Script,
    Font,
    Manifest,
}

impl Destination {
    /// The name of the destination; that of a `fetch`, which the standard leaves empty, is `fetch`.
    pub fn name(self) -> &'static str
        ensures { result.now ≡ destination_name self }
    {
        match self {
            Destination::Fetch => "fetch",
            Destination::Image => "image",
            Destination::Audio => "audio",
            Destination::Video => "video",
            Destination::Style => "style",
            Destination::Script => "script",
            Destination::Font => "font",
            Destination::Manifest => "manifest",
        }
    }
}

/// The effective directives for requests (CSP 3, section 6.8.1).
#[derive(Clone, Copy, Debug, PartialEq, Eq)]
pub enum Directive {
    ConnectSrc,
    ImgSrc,
    MediaSrc,
    FontSrc,
    ManifestSrc,
    StyleSrcElem,
    ScriptSrcElem,
}

impl Directive {
    /// The name of the directive.
    pub fn name(self) -> &'static str
        ensures { result.now ≡ directive_name self }
    {
        match self {
            Directive::ConnectSrc => "connect-src",
            Directive::ImgSrc => "img-src",
            Directive::MediaSrc => "media-src",
            Directive::FontSrc => "font-src",
            Directive::ManifestSrc => "manifest-src",
            Directive::StyleSrcElem => "style-src-elem",
            Directive::ScriptSrcElem => "script-src-elem",
        }
    }
}

/// A violation of a document's policy: the policy's number, whether it enforces, the effective
/// directive, and the reported URL.
#[derive(Drop)]
pub struct Violation {
    pub policy: u32,
    pub enforced: bool,
    pub directive: Directive,
    pub url: Bytes,
}
