// The hosts that are known when a scenario begins.
use value_bytes::{Bytes, Items};

/// A known HSTS host (RFC 6797, section 8.1.1): its domain as a URL has it, whether the names under it
/// are known too, and the first second in which it is not known any more.
#[derive(Drop)]
pub struct KnownHost {
    pub host: Bytes,
    pub subdomains: bool,
    pub until: u64,
}

/// The known hosts of a scenario, in order. Of equal ones the last counts.
pub type Hosts = Items<KnownHost>;
