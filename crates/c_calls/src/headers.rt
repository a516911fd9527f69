// Header lists.
ghost use Rattle.std.specs.Prelude.{◌≡◌, ◌≢◌, [], Some};
ghost use Rattle.c_calls.specs.Calls.{append_to, done, IsGot};

use c_handle::{Handle, OK, OUT_OF_MEMORY, Thing, WRONG_HANDLE, code_of, write_answer};
use c_rules::{append_header, value_of};
use std::alloc::Global;
use value_headers::HeaderList;

/// Makes an empty header list in a handle (Fetch, section 2.2.2). What the handle held is freed.
///
/// `OK` or `OUT_OF_MEMORY`. Except for `OK` the handle holds what it held.
#[unsafe(no_mangle)]
pub extern "C" fn fiorrudda_headers(alloc: Global, headers: &mut Handle) -> u32
    ensures ok { result ≡ OK → headers.new.held ≡ Some (Thing.Headers []) }
    ensures out_of_memory { result ≢ OK → (result ≡ OUT_OF_MEMORY) × (headers.new.held ≡ headers.old.held) }
{
    headers.fill(alloc, Thing::Headers(HeaderList::new(alloc)))
}

/// "append": adds a header to a list, its name in the spelling that the list has already (Fetch, section 2.2.2).
///
/// `OK`; `WRONG_HANDLE`; `NOT_A_HEADER`; `OUT_OF_MEMORY`. The list is as it was but for `OK`.
#[unsafe(no_mangle)]
pub extern "C" fn fiorrudda_append(headers: &mut Handle, name: &[u8], value: &[u8]) -> u32
    ensures told { result ≢ OUT_OF_MEMORY
        → done result headers.new.held ≡ append_to name.now value.now headers.old.held }
    ensures out_of_memory { result ≡ OUT_OF_MEMORY → headers.new.held ≡ headers.old.held }
{
    let Some(list) = headers.headers() else {
        return WRONG_HANDLE;
    };
    match append_header(list, name, value) {
        Ok(()) => OK,
        Err(refusal) => code_of(refusal),
    }
}

/// "get": writes all values of a name, joined by a comma and a space, at the beginning of `room`, with no NUL after
/// them, and tells in `len` how many bytes they are (Fetch, section 2.2.2).
///
/// `OK`; `NO` where the list has no such name; `TOO_SHORT` where `room` has less than `len` bytes; `WRONG_HANDLE`;
/// `OUT_OF_MEMORY`. But for `OK` nothing is written to `room`, and but for `OK` and `TOO_SHORT` nothing to `len`.
#[unsafe(no_mangle)]
pub extern "C" fn fiorrudda_get(
    alloc: Global,
    headers: &mut Handle,
    name: &[u8],
    room: &mut [u8],
    len: &mut usize,
) -> u32
    ensures told { result ≢ OUT_OF_MEMORY → IsGot name.now headers.old.held room.old room.new len.old len.new result }
    ensures out_of_memory { result ≡ OUT_OF_MEMORY → (room.new ≡ room.old) × (len.new ≡ len.old) }
    ensures held { headers.new.held ≡ headers.old.held }
{
    let Some(list) = headers.headers() else {
        return WRONG_HANDLE;
    };
    write_answer(value_of(alloc, list, name), room, len)
}
