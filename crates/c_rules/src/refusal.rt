// Why a rule that is asked of texts has no answer.
use value_bytes::OutOfMemory;

/// Why a call has no answer.
#[derive(Clone, Copy, Debug, PartialEq, Eq)]
pub enum Refusal {
    /// Memory was refused.
    OutOfMemory,
    /// A text is not UTF-8, or gives no URL by itself.
    NotUrl,
    /// A URL is neither http nor https.
    NotHttp,
    /// A name is no token, or a value no header value.
    NotHeader,
    /// A time is 2^48 seconds or more.
    TooLate,
    /// A host is no domain as a URL has it, or a localhost name.
    NotHost,
    /// No request can be made of what is asked for.
    NoRequest,
}

impl From<OutOfMemory> for Refusal {
    ghost use Rattle.std.specs.Prelude.{◌≡◌};
    ghost use Rattle.c_rules.specs.declared.refusal.Refusal.TheVariants as refusal;

    ghost from_gives = { λ _ made. made ≡ refusal.OutOfMemory };

    fn from(_error: OutOfMemory) -> Self {
        Refusal::OutOfMemory
    }
}
