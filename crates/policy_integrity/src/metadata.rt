// Integrity metadata: hash expressions (SRI, section 3.5).
use value_bytes::{Bytes, Items};

/// A hash expression (SRI, section 3.5, "hash-expression"): the bits of its algorithm, 256, 384 or 512,
/// and its base64 value, byte for byte as it was written.
#[derive(Drop)]
pub struct HashExpression {
    pub algorithm: u32,
    pub value: Bytes,
}

/// Integrity metadata: hash expressions, in order.
pub type Metadata = Items<HashExpression>;
