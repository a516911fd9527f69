// What the headers of an answer, and the words of a policy, say.
ghost use Rattle.std.specs.Prelude.{◌≡◌, ◌≢◌};
ghost use Rattle.c_calls.specs.Answers.{HasEssence, nosniff};
ghost use Rattle.c_handle.specs.Codes.{told};
ghost use Rattle.c_rules.specs.Sources as sources;

use c_handle::{Handle, OUT_OF_MEMORY, WRONG_HANDLE, told, write_answer, yes_or_no};
use c_rules::{essence_in, source_matches};
use std::alloc::Global;

/// "determine nosniff" of an answer's header list (Fetch, section 3.6). This tells only what the header says:
/// `fiorrudda_nosniff_blocked` decides.
///
/// `OK` where the answer says nosniff; `NO` where it does not; `WRONG_HANDLE`.
#[unsafe(no_mangle)]
pub extern "C" fn fiorrudda_nosniff(headers: &mut Handle) -> u32
    ensures told { result ≡ nosniff headers.old.held }
    ensures held { headers.new.held ≡ headers.old.held }
{
    let Some(list) = headers.headers() else {
        return WRONG_HANDLE;
    };
    yes_or_no(value_lists::nosniff(list))
}

/// Writes the essence of the MIME type of an answer, in lower case, at the beginning of `room`, with no NUL after it,
/// and tells in `len` how many bytes it is (Fetch, section 3.5, "extract a MIME type").
///
/// `OK`; `NO` where the list gives no MIME type; `TOO_SHORT` where `room` has less than `len` bytes; `WRONG_HANDLE`;
/// `OUT_OF_MEMORY`. But for `OK` nothing is written to `room`, and but for `OK` and `TOO_SHORT` nothing to `len`.
#[unsafe(no_mangle)]
pub extern "C" fn fiorrudda_essence(
    alloc: Global,
    headers: &mut Handle,
    room: &mut [u8],
    len: &mut usize,
) -> u32
    ensures told { result ≢ OUT_OF_MEMORY → HasEssence headers.old.held room.old room.new len.old len.new result }
    ensures out_of_memory { result ≡ OUT_OF_MEMORY → (room.new ≡ room.old) × (len.new ≡ len.old) }
    ensures held { headers.new.held ≡ headers.old.held }
{
    let Some(list) = headers.headers() else {
        return WRONG_HANDLE;
    };
    write_answer(essence_in(alloc, list), room, len)
}

/// Whether a word of a content security policy, as a source expression, matches a URL, for a page and a number of
/// redirects (CSP 3, section 6.7.2, "does url match expression in origin with redirect count").
///
/// `OK` where it matches; `NO`; `NOT_A_URL`, of the URL or of the page; `NOT_HTTP`, of the page; `OUT_OF_MEMORY`.
#[unsafe(no_mangle)]
pub extern "C" fn fiorrudda_source_matches(
    alloc: Global,
    word: &[u8],
    url: &[u8],
    page: &[u8],
    redirects: u32,
) -> u32
    ensures { result ≢ OUT_OF_MEMORY → result ≡ told (sources.source_matches word.now url.now page.now redirects) }
{
    told(source_matches(alloc, word, url, page, redirects))
}
