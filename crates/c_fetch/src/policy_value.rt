// The value of a policy's header, as it was given.
use value_bytes::Bytes;

/// The value of a Content-Security-Policy header, or of a report-only one.
#[derive(Drop)]
pub struct PolicyValue {
    pub value: Bytes,
    pub enforced: bool,
}
