// "should response to request be blocked due to its MIME type", and ".. due to nosniff" (Fetch).
ghost use Rattle.std.specs.Prelude.{◌≡◌, option_copied};
ghost use Rattle.value_lists.specs.Blocking as spec;

use crate::javascript::is_javascript;

// Whether the essence is that of an audio, image or video MIME type, or `text/csv`.
fn is_never_script(essence: &[u8]) -> bool
    ensures { result ≡ spec.is_never_script essence.now }
{
    essence.starts_with(b"audio/")
        || essence.starts_with(b"image/")
        || essence.starts_with(b"video/")
        || essence == b"text/csv".as_slice()
}

/// "Should response to request be blocked due to its MIME type" (Fetch): the destination is a script,
/// and the essence begins with `audio/`, `image/` or `video/`, or is `text/csv`. No essence means
/// no MIME type. It takes no memory.
pub fn mime_blocked(essence: Option<&[u8]>, script: bool) -> bool
    ensures { result ≡ spec.mime_blocked (option_copied essence.entry) script }
{
    match essence {
        Some(essence) => script && is_never_script(essence),
        None => false,
    }
}

/// "Should response to request be blocked due to nosniff" (Fetch), for a response whose headers say
/// nosniff: the destination is a script and the essence is not that of a JavaScript MIME type, or it
/// is a style and the essence is not `text/css`. No essence means no MIME type. It takes no memory.
pub fn nosniff_blocked(essence: Option<&[u8]>, script: bool, style: bool) -> bool
    ensures { result ≡ spec.nosniff_blocked (option_copied essence.entry) script style }
{
    match essence {
        Some(essence) => {
            (script && !is_javascript(essence)) || (style && essence != b"text/css".as_slice())
        }
        None => script || style,
    }
}
