// The modes of a request and its response tainting (Fetch, section 2.2.5), and its referrer policy.
ghost use Rattle.std.specs.Prelude.{◌≡◌};
ghost use Rattle.value_requests.specs.Modes as modes;
ghost use Rattle.value_requests.specs.Names.{mode_name, credentials_name, redirect_name, policy_name};

/// The mode of a request (Fetch, section 2.2.5).
#[derive(Clone, Copy, Debug, PartialEq, Eq)]
pub enum Mode {
    SameOrigin,
    NoCors,
    Cors,
    Navigate,
}

impl Mode {
    /// The name of the mode.
    pub fn name(self) -> &'static str
        ensures { result.now ≡ mode_name self }
    {
        match self {
            Mode::SameOrigin => "same-origin",
            Mode::NoCors => "no-cors",
            Mode::Cors => "cors",
            Mode::Navigate => "navigate",
        }
    }

    /// Whether the mode is cors. It takes no memory.
    pub fn is_cors(self) -> bool
        ensures { result ≡ modes.is_cors_mode self }
    {
        matches!(self, Mode::Cors)
    }
}

/// The credentials mode of a request (Fetch, section 2.2.5).
#[derive(Clone, Copy, Debug, PartialEq, Eq)]
pub enum Credentials {
    Omit,
    SameOrigin,
    Include,
}

impl Credentials {
    /// The name of the credentials mode.
    pub fn name(self) -> &'static str
        ensures { result.now ≡ credentials_name self }
    {
        match self {
            Credentials::Omit => "omit",
            Credentials::SameOrigin => "same-origin",
            Credentials::Include => "include",
        }
    }

    /// Whether the credentials mode is include. It takes no memory.
    pub fn is_include(self) -> bool
        ensures { result ≡ modes.is_include self }
    {
        matches!(self, Credentials::Include)
    }
}

/// The redirect mode of a request (Fetch, section 2.2.5).
#[derive(Clone, Copy, Debug, PartialEq, Eq)]
pub enum RedirectMode {
    Follow,
    Error,
    Manual,
}

impl RedirectMode {
    /// The name of the redirect mode.
    pub fn name(self) -> &'static str
        ensures { result.now ≡ redirect_name self }
    {
        match self {
            RedirectMode::Follow => "follow",
            RedirectMode::Error => "error",
            RedirectMode::Manual => "manual",
        }
    }

    /// Whether the redirect mode is follow. It takes no memory.
    pub fn is_follow(self) -> bool
        ensures { result ≡ modes.is_follow self }
    {
        matches!(self, RedirectMode::Follow)
    }

    /// Whether the redirect mode is manual. It takes no memory.
    pub fn is_manual(self) -> bool
        ensures { result ≡ modes.is_manual_mode self }
    {
        matches!(self, RedirectMode::Manual)
    }

    /// Whether the redirect mode is error. It takes no memory.
    pub fn is_error(self) -> bool
        ensures { result ≡ modes.is_error_mode self }
    {
        matches!(self, RedirectMode::Error)
    }
}

/// The response tainting of a request (Fetch, section 2.2.5).
#[derive(Clone, Copy, Debug, PartialEq, Eq)]
pub enum Tainting {
    Basic,
    Cors,
    Opaque,
}

impl Tainting {
    /// Whether the tainting is cors. It takes no memory.
    pub fn is_cors(self) -> bool
        ensures { result ≡ modes.is_cors_tainted self }
    {
        matches!(self, Tainting::Cors)
    }
}

/// A referrer policy (Referrer Policy, section 3); `Empty` is the empty string, no policy.
#[derive(Clone, Copy, Debug, PartialEq, Eq)]
pub enum ReferrerPolicy {
    Empty,
    NoReferrer,
    NoReferrerWhenDowngrade,
    SameOrigin,
    Origin,
    StrictOrigin,
    OriginWhenCrossOrigin,
    StrictOriginWhenCrossOrigin,
    UnsafeUrl,
}

impl ReferrerPolicy {
    /// The token of the policy; that of `Empty` is empty.
    pub fn name(self) -> &'static str
        ensures { result.now ≡ policy_name self }
    {
        match self {
            ReferrerPolicy::Empty => "",
            ReferrerPolicy::NoReferrer => "no-referrer",
            ReferrerPolicy::NoReferrerWhenDowngrade => "no-referrer-when-downgrade",
            ReferrerPolicy::SameOrigin => "same-origin",
            ReferrerPolicy::Origin => "origin",
            ReferrerPolicy::StrictOrigin => "strict-origin",
            ReferrerPolicy::OriginWhenCrossOrigin => "origin-when-cross-origin",
            ReferrerPolicy::StrictOriginWhenCrossOrigin => "strict-origin-when-cross-origin",
            ReferrerPolicy::UnsafeUrl => "unsafe-url",
        }
    }
}
