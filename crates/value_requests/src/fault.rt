// Why a script's `fetch` makes no request, each fault with its number and its name.
ghost use Rattle.std.specs.Prelude.{◌≡◌};
ghost use Rattle.value_requests.specs.Errors.{fault_number, fault_name};

/// Why a request could not be made of what a script asked for: the faults of the constructor of a
/// request and of `fetch` (Fetch, sections 5.4 and 5.6). `BadHeader` has the index of the first bad
/// header. `TooLong` and `LongUrl` are this project's limits.
#[derive(Clone, Copy, Debug, PartialEq, Eq)]
pub enum TypeFault {
    BadUrl,
    UrlCredentials,
    BadMethod,
    ForbiddenMethod,
    BodyWithGet,
    NoCorsMethod,
    BadHeader(u32),
    NavigateMode,
    TooLong,
    LongUrl,
}

impl TypeFault {
    // The number of the fault, and its name without the header's index.
    fn label(self) -> (u32, &'static str)
        ensures number { result.0 ≡ fault_number self }
        ensures name { result.1.now ≡ fault_name self }
    {
        match self {
            TypeFault::BadUrl => (1, "BadUrl"),
            TypeFault::UrlCredentials => (2, "UrlCredentials"),
            TypeFault::BadMethod => (3, "BadMethod"),
            TypeFault::ForbiddenMethod => (4, "ForbiddenMethod"),
            TypeFault::BodyWithGet => (5, "BodyWithGet"),
            TypeFault::NoCorsMethod => (6, "NoCorsMethod"),
            TypeFault::BadHeader(_) => (7, "BadHeader"),
            TypeFault::NavigateMode => (8, "NavigateMode"),
            TypeFault::TooLong => (9, "TooLong"),
            TypeFault::LongUrl => (10, "LongUrl"),
        }
    }

    /// The number of the fault.
    pub fn number(self) -> u32
        ensures { result ≡ fault_number self }
    {
        self.label().0
    }

    /// The name of the fault, without the header's index.
    pub fn name(self) -> &'static str
        ensures { result.now ≡ fault_name self }
    {
        self.label().1
    }
}
