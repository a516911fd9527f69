// What a script may send, and what asks first.
ghost use Rattle.std.specs.Prelude.{◌≡◌};
ghost use Rattle.c_handle.specs.Codes.{yes_or_no};
ghost use Rattle.policy_safelist.specs.Forbidden as forbidden;
ghost use Rattle.policy_safelist.specs.Safelisted as safelisted;

use c_handle::yes_or_no;
use policy_safelist::{is_forbidden_method, is_safelisted};

/// Whether a name and a value are a CORS-safelisted request-header (Fetch, section 2.2.2): with it alone, no preflight
/// is sent.
///
/// `OK` where they are; `NO`.
#[unsafe(no_mangle)]
pub extern "C" fn fiorrudda_safelisted(name: &[u8], value: &[u8]) -> u32
    ensures { result ≡ yes_or_no (safelisted.is_safelisted name.now value.now) }
{
    yes_or_no(is_safelisted(name, value))
}

/// Whether a method is forbidden to scripts: CONNECT, TRACE or TRACK, in any case (Fetch, section 2.2.1).
///
/// `OK` where it is forbidden; `NO`.
#[unsafe(no_mangle)]
pub extern "C" fn fiorrudda_forbidden_method(method: &[u8]) -> u32
    ensures { result ≡ yes_or_no (forbidden.is_forbidden_method method.now) }
{
    yes_or_no(is_forbidden_method(method))
}
