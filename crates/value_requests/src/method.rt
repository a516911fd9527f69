// CORS-safelisted methods, and how methods are normalised (Fetch, section 2.2.1).
ghost use Rattle.std.specs.Prelude.{◌≡◌, IfOk};
ghost use Rattle.value_requests.specs.Methods as spec;

use std::alloc::Global;
use value_bytes::{Bytes, OutOfMemory, in_upper_case};
use value_text::{is_among, is_among_fold};

/// The CORS-safelisted methods.
const SAFELISTED_METHODS: [&[u8]; 3] = [b"GET", b"HEAD", b"POST"];

/// The methods that are in upper case.
const NORMALIZED_METHODS: [&[u8]; 6] = [b"DELETE", b"GET", b"HEAD", b"OPTIONS", b"POST", b"PUT"];

/// Whether a method is CORS-safelisted: GET, HEAD or POST, in this case (Fetch, section 2.2.1). It
/// takes no memory.
pub fn is_safelisted_method(method: &[u8]) -> bool
    ensures { result ≡ spec.is_safelisted_method method.now }
{
    is_among(&SAFELISTED_METHODS, method)
}

// Whether the method is written in upper case whatever its case.
fn is_normalized(method: &[u8]) -> bool
    ensures { result ≡ spec.is_normalized method.now }
{
    is_among_fold(&NORMALIZED_METHODS, method)
}

/// "normalize" a method: DELETE, GET, HEAD, OPTIONS, POST and PUT, in any ASCII case, are in upper
/// case, and others keep their case (Fetch, section 2.2.1).
pub fn normalized_method(alloc: Global, method: &[u8]) -> Result<Bytes, OutOfMemory>
    ensures { IfOk result (λ normalized. normalized ≡ spec.normalized method.now) }
{
    if is_normalized(method) {
        in_upper_case(alloc, method)
    } else {
        Bytes::of(alloc, method)
    }
}

/// Whether the method is GET or HEAD, whose requests have no body (Fetch, section 5.4). It takes no
/// memory.
pub fn is_get_or_head(method: &[u8]) -> bool
    ensures { result ≡ spec.is_get_or_head method.now }
{
    method == b"GET".as_slice() || method == b"HEAD".as_slice()
}

/// Whether the method is POST or PUT, with which an empty body is told (Fetch, section 4.6). It takes
/// no memory.
pub fn is_post_or_put(method: &[u8]) -> bool
    ensures { result ≡ spec.is_post_or_put method.now }
{
    method == b"POST".as_slice() || method == b"PUT".as_slice()
}
