// The place where a scenario is refused.
use value_bytes::Bytes;

/// Where a scenario is refused: `json` where the text is no tree, else the way from the root to the
/// value, as `/documents/0/url`; `/` is the root.
#[derive(Drop)]
pub struct Place {
    pub text: Bytes,
}
