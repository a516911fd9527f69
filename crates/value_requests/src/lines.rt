// Header lines that the user agent adds to a request that is sent.
ghost use Rattle.std.specs.Prelude.{◌≡◌, option_copied, OnOk, OnErr};
ghost use Rattle.value_requests.specs.Lines.{appended_where};

use value_bytes::{Bytes, OutOfMemory};
use value_headers::PackedHeaders;

/// The user agent's name, as the value of User-Agent.
pub const USER_AGENT: &[u8] = b"fetchplay/1";

/// The value of Accept-Encoding: it asks for bodies as they are, without a coding.
pub const ACCEPT_ENCODING: &[u8] = b"identity";

/// The value of Connection: it asks that the connection is closed after the answer.
pub const CONNECTION: &[u8] = b"close";

/// The text, where there is one. It takes no memory.
pub fn slice_of(text: &Option<Bytes>) -> Option<&[u8]>
    ensures { option_copied result ≡ text.now }
{
    match text {
        None => None,
        Some(text) => Some(text.as_slice()),
    }
}

/// Appends a header to packed ones, where there is a value. Where memory is refused the list is as it was.
#[tactic(auto, unfolding(crate::specs::Lines::appended_where))]
pub fn append_where(
    headers: &mut PackedHeaders,
    name: &[u8],
    value: Option<&[u8]>,
) -> Result<(), OutOfMemory>
    ensures ok { OnOk result (headers.new ≡ appended_where name.now (option_copied value.entry) headers.old) }
    ensures err { OnErr result (headers.new ≡ headers.old) }
{
    match value {
        None => Ok(()),
        Some(value) => headers.append(name, value),
    }
}
