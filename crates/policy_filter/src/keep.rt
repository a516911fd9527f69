// Which headers are kept of a head: for a filtered response, or for what a document may learn of it.
ghost use Rattle.std.specs.Prelude.{◌≡◌};
ghost use Rattle.policy_filter.specs.Private.Listing.{is_safelisted_among};
ghost use Rattle.policy_filter.specs.Private.Keeping as private;
ghost use Rattle.policy_filter.specs.Views as views;
ghost use Rattle.policy_checks.specs.PermittedNames as permitted;

use crate::listed::{Exposed, is_safelisted_among};
use crate::names::is_forbidden;
use policy_checks::has_name_among;
use value_headers::{Field, HeaderTest};
use value_requests::Tainting;

// The headers that a verdict on the answer to a preflight rests on.
const PREFLIGHT_NAMES: [&[u8]; 6] = [
    b"Strict-Transport-Security",
    b"Access-Control-Allow-Origin",
    b"Access-Control-Allow-Credentials",
    b"Access-Control-Allow-Methods",
    b"Access-Control-Allow-Headers",
    b"Access-Control-Max-Age",
];

// The header that known hosts are noted by.
const BASIC_NAMES: [&[u8]; 1] = [b"Strict-Transport-Security"];

// The header that known hosts are noted by, and those that the CORS check rests on.
const CORS_NAMES: [&[u8]; 3] = [
    b"Strict-Transport-Security",
    b"Access-Control-Allow-Origin",
    b"Access-Control-Allow-Credentials",
];

// The header that known hosts are noted by, and the one that the cross-origin resource policy check rests
// on.
const OPAQUE_NAMES: [&[u8]; 2] = [
    b"Strict-Transport-Security",
    b"Cross-Origin-Resource-Policy",
];

// The headers of a CORS response that the end of main fetch rests on.
const RESPONSE_NAMES: [&[u8]; 4] = [
    b"Access-Control-Expose-Headers",
    b"X-Content-Type-Options",
    b"Content-Type",
    b"Content-Encoding",
];

/// Which headers of a head are kept.
#[derive(Clone, Copy)]
pub enum Keep<'a> {
    /// Those without a forbidden response-header name.
    Allowed,
    /// Those that a verdict on the answer to a preflight rests on.
    Preflight,
    /// Those that the check of this tainting rests on, and those with these names.
    Told(Tainting, &'a [&'a [u8]]),
    /// Those with a CORS-safelisted response-header name, of a list that exposes this.
    Safelisted(&'a Exposed),
    /// Those of `Safelisted`, the header by which a host becomes known, and those that the CORS check and the end of
    /// main fetch rest on.
    ToldCors(&'a Exposed),
}

// Whether the check of this tainting rests on the header.
fn is_checked(tainting: Tainting, header: &Field) -> bool
    ensures { result ≡ permitted.has_name_among (views.checked_names tainting) header.now }
{
    match tainting {
        Tainting::Basic => has_name_among(&BASIC_NAMES, header),
        Tainting::Cors => has_name_among(&CORS_NAMES, header),
        Tainting::Opaque => has_name_among(&OPAQUE_NAMES, header),
    }
}

impl<'a> HeaderTest for Keep<'a> {
    ghost passing = { private.keeps };

    fn passes(&self, header: &Field) -> bool {
        match self {
            Keep::Allowed => !is_forbidden(header),
            Keep::Preflight => has_name_among(&PREFLIGHT_NAMES, header),
            Keep::Told(tainting, names) => {
                is_checked(*tainting, header) || has_name_among(names, header)
            }
            Keep::Safelisted(exposed) => is_safelisted_among(exposed, header),
            Keep::ToldCors(exposed) => {
                is_safelisted_among(exposed, header)
                    || is_checked(Tainting::Cors, header)
                    || has_name_among(&RESPONSE_NAMES, header)
            }
        }
    }
}
