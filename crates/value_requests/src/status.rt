// Redirect, ok and null body statuses (Fetch, section 2.2.3).
ghost use Rattle.std.specs.Prelude.{◌≡◌};
ghost use Rattle.value_requests.specs.Statuses as spec;

/// Whether it is a redirect status: 301, 302, 303, 307 or 308 (Fetch, section 2.2.3). It takes no memory.
pub fn is_redirect_status(status: u16) -> bool
    ensures { result ≡ spec.is_redirect_status status }
{
    matches!(status, 301 | 302 | 303 | 307 | 308)
}

/// Whether it is an ok status: 200 to 299 (Fetch, section 2.2.3). It takes no memory.
pub fn is_ok_status(status: u16) -> bool
    ensures { result ≡ spec.is_ok_status status }
{
    200 <= status && status <= 299
}

/// Whether it is a null body status: 101, 103, 204, 205 or 304 (Fetch, section 2.2.3). It takes no
/// memory.
pub fn is_null_body_status(status: u16) -> bool
    ensures { result ≡ spec.is_null_body_status status }
{
    matches!(status, 101 | 103 | 204 | 205 | 304)
}
