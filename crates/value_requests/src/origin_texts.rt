// Texts that are serialised origins.
ghost use Rattle.std.specs.Prelude.{◌≡◌, IfOk};
ghost use Rattle.value_requests.specs.OriginTexts as spec;

use crate::urls::{url_alone, utf8_text};
use std::alloc::Global;
use value_bytes::OutOfMemory;
use value_origins::{Origin, origin_of, serialize};

/// The origin that a table's text writes: that of an http or https URL whose serialisation (HTML,
/// section 7.1.1) the text is, byte for byte. Any other text is refused by `None`: one that is not
/// UTF-8 or gives no URL, one of another scheme, and one that writes an origin in another way, as
/// with a path, with a default port or in upper case. `OutOfMemory` tells want of memory alone.
pub fn read_origin(alloc: Global, text: &[u8]) -> Result<Option<Origin>, OutOfMemory>
    ensures { IfOk result (λ origin. origin ≡ spec.origin_of_text text.now) }
{
    let Some(address) = utf8_text(text) else {
        return Ok(None);
    };
    let Some(url) = url_alone(alloc, address)? else {
        return Ok(None);
    };
    let Some(origin) = origin_of(alloc, &url)? else {
        return Ok(None);
    };
    if serialize(alloc, &origin)?.as_slice() == text {
        Ok(Some(origin))
    } else {
        Ok(None)
    }
}
