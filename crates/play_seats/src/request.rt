// What a scripted server takes from the first line of a request (RFC 9112, section 3).
ghost use Rattle.std.specs.Prelude.{◌≡◌};
ghost use Rattle.play_seats.specs.Sim as spec;

use value_text::{after_byte, before_byte};

// The method of a request: what is before the first space.
pub(crate) fn method_of(request: &[u8]) -> &[u8]
    ensures { result.now ≡ spec.method_of request.now }
{
    before_byte(request, b' ')
}

// The target of a request: what is between the first space and the second.
pub(crate) fn target_of(request: &[u8]) -> &[u8]
    ensures { result.now ≡ spec.target_of request.now }
{
    before_byte(after_byte(request, b' '), b' ')
}
