// Header lists by index, and names of headers.
ghost use Rattle.std.specs.Prelude.{◌≡◌, ◌≢◌};
ghost use Rattle.c_handle.specs.Codes.{told};
ghost use Rattle.c_policies.specs.Headers.{IsExposedName, IsNameAt, IsUnsafeName, IsValueAt};
ghost use Rattle.c_rules.specs.Names as names;

use c_handle::{Handle, NO, OUT_OF_MEMORY, WRONG_HANDLE, told, write, write_answer};
use c_rules::{exposed_name_at, is_forbidden_header, unsafe_name_at};
use std::alloc::Global;

/// Writes the name of the header at an index of a list (Fetch, section 2.2.2), from 0 on, at the beginning of `room`,
/// with no NUL after it, and tells in `len` how many bytes it is.
///
/// `OK`; `NO` behind the last; `TOO_SHORT` where `room` has less than `len` bytes; `WRONG_HANDLE`. But for `OK` nothing
/// is written to `room`, and but for `OK` and `TOO_SHORT` nothing to `len`.
#[unsafe(no_mangle)]
pub extern "C" fn fiorrudda_name_at(
    headers: &mut Handle,
    at: usize,
    room: &mut [u8],
    len: &mut usize,
) -> u32
    ensures told { IsNameAt at headers.old.held room.old room.new len.old len.new result }
    ensures held { headers.new.held ≡ headers.old.held }
{
    let Some(list) = headers.headers() else {
        return WRONG_HANDLE;
    };
    match list.as_slice().get(at) {
        None => NO,
        Some(header) => write(header.name(), room, len),
    }
}

/// Writes the value of the header at an index of a list (Fetch, section 2.2.2), as `fiorrudda_name_at` its name.
///
/// The codes are the same.
#[unsafe(no_mangle)]
pub extern "C" fn fiorrudda_value_at(
    headers: &mut Handle,
    at: usize,
    room: &mut [u8],
    len: &mut usize,
) -> u32
    ensures told { IsValueAt at headers.old.held room.old room.new len.old len.new result }
    ensures held { headers.new.held ≡ headers.old.held }
{
    let Some(list) = headers.headers() else {
        return WRONG_HANDLE;
    };
    match list.as_slice().get(at) {
        None => NO,
        Some(header) => write(header.value(), room, len),
    }
}

/// Writes one of the CORS-unsafe request-header names of a list, at an index from 0 on, at the beginning of `room`,
/// with no NUL after it, and tells in `len` how many bytes it is (Fetch, section 2.2.2). They are in lower case, each
/// once, and ascend by their bytes: those of which a preflight asks.
///
/// `OK`; `NO`, which alone says that there are no more, behind the last; `TOO_SHORT` where `room` has less than `len`
/// bytes; `WRONG_HANDLE`; `OUT_OF_MEMORY`. But for `OK` nothing is written to `room`, and but for `OK` and `TOO_SHORT`
/// nothing to `len`.
#[unsafe(no_mangle)]
pub extern "C" fn fiorrudda_unsafe_name(
    alloc: Global,
    headers: &mut Handle,
    at: usize,
    room: &mut [u8],
    len: &mut usize,
) -> u32
    ensures told { result ≢ OUT_OF_MEMORY
        → IsUnsafeName at headers.old.held room.old room.new len.old len.new result }
    ensures out_of_memory { result ≡ OUT_OF_MEMORY → (room.new ≡ room.old) × (len.new ≡ len.old) }
    ensures held { headers.new.held ≡ headers.old.held }
{
    let Some(list) = headers.headers() else {
        return WRONG_HANDLE;
    };
    write_answer(unsafe_name_at(alloc, list, at), room, len)
}

/// Writes one of the names that an answer's header list exposes to a page of another origin, at an index from 0 on, at
/// the beginning of `room`, with no NUL after it, and tells in `len` how many bytes it is (Fetch, section 2.2.6,
/// "CORS-exposed header-name list"). With `*` all names of the list are exposed, unless the credentials mode is
/// include, which `include` tells. A page sees the safelisted names, as Content-Type, without their being named, and
/// never Set-Cookie, even where it is named here: `fiorrudda_filtered` has what it sees.
///
/// `OK`; `NO` behind the last; `TOO_SHORT` where `room` has less than `len` bytes; `WRONG_HANDLE`; `OUT_OF_MEMORY`. But
/// for `OK` nothing is written to `room`, and but for `OK` and `TOO_SHORT` nothing to `len`.
#[unsafe(no_mangle)]
pub extern "C" fn fiorrudda_exposed_name(
    alloc: Global,
    headers: &mut Handle,
    include: bool,
    at: usize,
    room: &mut [u8],
    len: &mut usize,
) -> u32
    ensures told { result ≢ OUT_OF_MEMORY
        → IsExposedName include at headers.old.held room.old room.new len.old len.new result }
    ensures out_of_memory { result ≡ OUT_OF_MEMORY → (room.new ≡ room.old) × (len.new ≡ len.old) }
    ensures held { headers.new.held ≡ headers.old.held }
{
    let Some(list) = headers.headers() else {
        return WRONG_HANDLE;
    };
    write_answer(exposed_name_at(alloc, list, include, at), room, len)
}

/// Whether a name and a value are a forbidden request-header, which no script can set (Fetch, section 2.2.2).
///
/// `OK` where they are; `NO`, which alone gives leave; `NOT_A_HEADER`; `OUT_OF_MEMORY`.
#[unsafe(no_mangle)]
pub extern "C" fn fiorrudda_forbidden_header(alloc: Global, name: &[u8], value: &[u8]) -> u32
    ensures { result ≢ OUT_OF_MEMORY → result ≡ told (names.is_forbidden name.now value.now) }
{
    told(is_forbidden_header(alloc, name, value))
}
