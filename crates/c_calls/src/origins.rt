// Rules on URLs and their origins.
ghost use Rattle.std.specs.Prelude.{◌≡◌, ◌≢◌};
ghost use Rattle.c_handle.specs.Codes.{some_text, told, IsTextTold};
ghost use Rattle.c_rules.specs.Origins as origins;

use c_handle::{OUT_OF_MEMORY, told, write_text};
use c_rules::{are_same_origin, are_same_site, goes_to_bad_port, is_trustworthy, origin_text};
use std::alloc::Global;

/// Writes the serialised origin of a URL at the beginning of `room`, with no NUL after it, and tells in `len` how many
/// bytes it is (HTML, section 7.1.1, "serialization of an origin").
///
/// `OK`; `TOO_SHORT` where `room` has less than `len` bytes; `NOT_A_URL`; `NOT_HTTP`; `OUT_OF_MEMORY`. But for `OK`
/// nothing is written to `room`, and but for `OK` and `TOO_SHORT` nothing to `len`.
#[unsafe(no_mangle)]
pub extern "C" fn fiorrudda_origin(
    alloc: Global,
    url: &[u8],
    room: &mut [u8],
    len: &mut usize,
) -> u32
    ensures told { result ≢ OUT_OF_MEMORY
        → IsTextTold (some_text (origins.origin_text url.now)) room.old room.new len.old len.new result }
    ensures out_of_memory { result ≡ OUT_OF_MEMORY → (room.new ≡ room.old) × (len.new ≡ len.old) }
{
    write_text(origin_text(alloc, url), room, len)
}

/// Whether two URLs have the same origin (HTML, section 7.1.1, "same origin").
///
/// `OK` where they have; `NO`; `NOT_A_URL`; `NOT_HTTP`; `OUT_OF_MEMORY`.
#[unsafe(no_mangle)]
pub extern "C" fn fiorrudda_same_origin(alloc: Global, a: &[u8], b: &[u8]) -> u32
    ensures { result ≢ OUT_OF_MEMORY → result ≡ told (origins.are_same_origin a.now b.now) }
{
    told(are_same_origin(alloc, a, b))
}

/// Whether the origins of two URLs are of one site, whatever their schemes and ports (HTML, section 7.1.1,
/// "schemelessly same site"). There is no list of public suffixes: the site of a domain is its last two labels.
///
/// `OK` where they are; `NO`; `NOT_A_URL`; `NOT_HTTP`; `OUT_OF_MEMORY`.
#[unsafe(no_mangle)]
pub extern "C" fn fiorrudda_same_site(alloc: Global, a: &[u8], b: &[u8]) -> u32
    ensures { result ≢ OUT_OF_MEMORY → result ≡ told (origins.are_same_site a.now b.now) }
{
    told(are_same_site(alloc, a, b))
}

/// Whether a URL is potentially trustworthy (Secure Contexts, section 3.2, "is url potentially trustworthy"): it is
/// https, or it is http and its host is a localhost name, an address of 127.0.0.0/8 or ::1.
///
/// `OK` where it is, which alone gives leave; `NO`; `NOT_A_URL`; `OUT_OF_MEMORY`.
#[unsafe(no_mangle)]
pub extern "C" fn fiorrudda_trustworthy(alloc: Global, url: &[u8]) -> u32
    ensures { result ≢ OUT_OF_MEMORY → result ≡ told (origins.is_trustworthy url.now) }
{
    told(is_trustworthy(alloc, url))
}

/// Whether a URL has a bad port, to which nothing is sent (Fetch, section 2.9, "bad port").
///
/// `OK` where the port is bad; `NO`, which alone gives leave; `NOT_A_URL`; `NOT_HTTP`; `OUT_OF_MEMORY`.
#[unsafe(no_mangle)]
pub extern "C" fn fiorrudda_bad_port(alloc: Global, url: &[u8]) -> u32
    ensures { result ≢ OUT_OF_MEMORY → result ≡ told (origins.goes_to_bad_port url.now) }
{
    told(goes_to_bad_port(alloc, url))
}
