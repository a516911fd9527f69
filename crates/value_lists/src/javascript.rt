// JavaScript MIME types (MIME Sniffing, section 4.6).
ghost use Rattle.std.specs.Prelude.{◌≡◌};
ghost use Rattle.value_lists.specs.JavaScript as spec;

use value_text::is_among;

// The essences of the JavaScript MIME types.
const JAVASCRIPT_TYPES: [&[u8]; 16] = [
    b"application/ecmascript",
    b"application/javascript",
    b"application/x-ecmascript",
    b"application/x-javascript",
    b"text/ecmascript",
    b"text/javascript",
    b"text/javascript1.0",
    b"text/javascript1.1",
    b"text/javascript1.2",
    b"text/javascript1.3",
    b"text/javascript1.4",
    b"text/javascript1.5",
    b"text/jscript",
    b"text/livescript",
    b"text/x-ecmascript",
    b"text/x-javascript",
];

/// Whether an essence, which is in lower case, is that of a JavaScript MIME type (MIME Sniffing,
/// section 4.6, "JavaScript MIME type"). It takes no memory.
pub fn is_javascript(essence: &[u8]) -> bool
    ensures { result ≡ spec.is_javascript essence.now }
{
    is_among(&JAVASCRIPT_TYPES, essence)
}
