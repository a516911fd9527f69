// Network errors, each with its number and its name.
ghost use Rattle.std.specs.Prelude.{◌≡◌};
ghost use Rattle.value_requests.specs.Errors.{error_number, error_name};

use value_bytes::Bytes;

/// The network errors, by the rule that refuses. `PreflightHeader` names the header, in lower case.
#[derive(Drop)]
pub enum NetError {
    Scheme,
    BadPort,
    Mixed,
    CspRequest,
    SameOriginMode,
    NoCorsRedirectMode,
    PreflightCors,
    PreflightStatus,
    PreflightList,
    PreflightMethod,
    PreflightHeader(Bytes),
    CorsCheck,
    Corp,
    RedirectMode,
    BadLocation,
    RedirectScheme,
    TooManyRedirects,
    RedirectCredentials,
    CspResponse,
    Mime,
    NoSniff,
    Integrity,
    Coding,
    LinkFault,
    BadHead,
    HeadTooBig,
}

impl NetError {
    // The number of the error, and its name without the header's.
    fn label(&self) -> (u32, &'static str)
        ensures number { result.0 ≡ error_number self.now }
        ensures name { result.1.now ≡ error_name self.now }
    {
        match self {
            NetError::Scheme => (1, "Scheme"),
            NetError::BadPort => (2, "BadPort"),
            NetError::Mixed => (3, "Mixed"),
            NetError::CspRequest => (4, "CspRequest"),
            NetError::SameOriginMode => (5, "SameOriginMode"),
            NetError::NoCorsRedirectMode => (6, "NoCorsRedirectMode"),
            NetError::PreflightCors => (7, "PreflightCors"),
            NetError::PreflightStatus => (8, "PreflightStatus"),
            NetError::PreflightList => (9, "PreflightList"),
            NetError::PreflightMethod => (10, "PreflightMethod"),
            NetError::PreflightHeader(_) => (11, "PreflightHeader"),
            NetError::CorsCheck => (12, "CorsCheck"),
            NetError::Corp => (13, "Corp"),
            NetError::RedirectMode => (14, "RedirectMode"),
            NetError::BadLocation => (15, "BadLocation"),
            NetError::RedirectScheme => (16, "RedirectScheme"),
            NetError::TooManyRedirects => (17, "TooManyRedirects"),
            NetError::RedirectCredentials => (18, "RedirectCredentials"),
            NetError::CspResponse => (19, "CspResponse"),
            NetError::Mime => (20, "Mime"),
            NetError::NoSniff => (21, "NoSniff"),
            NetError::Integrity => (22, "Integrity"),
            NetError::Coding => (23, "Coding"),
            NetError::LinkFault => (24, "LinkFault"),
            NetError::BadHead => (25, "BadHead"),
            NetError::HeadTooBig => (26, "HeadTooBig"),
        }
    }

    /// The number of the error.
    pub fn number(&self) -> u32
        ensures { result ≡ error_number self.now }
    {
        self.label().0
    }

    /// The name of the error, without the header's.
    pub fn name(&self) -> &'static str
        ensures { result.now ≡ error_name self.now }
    {
        self.label().1
    }
}
