// Violations that were found.
ghost use Rattle.std.specs.Prelude.{◌≡◌};
ghost use Rattle.c_policies.specs.Checks.{IsDirectiveAt, IsUrlAt, IsViolationAt};

use c_handle::{Handle, NO, OK, WRONG_HANDLE, write};

/// Tells of the violation (CSP 3, section 2.4) at an index, from 0 on, the number of the policy in `policy`, and 1 in
/// `enforced` where that is enforced, or 0.
///
/// `OK`; `NO` behind the last; `WRONG_HANDLE`. But for `OK` nothing is written.
#[unsafe(no_mangle)]
pub extern "C" fn fiorrudda_violation(
    violations: &mut Handle,
    at: usize,
    policy: &mut u32,
    enforced: &mut u32,
) -> u32
    ensures told { IsViolationAt at violations.old.held policy.old policy.new enforced.old enforced.new result }
    ensures held { violations.new.held ≡ violations.old.held }
{
    let Some(found) = violations.violations() else {
        return WRONG_HANDLE;
    };
    match found.violations.as_slice().get(at) {
        None => NO,
        Some(violation) => {
            *policy = violation.policy;
            *enforced = u32::from(violation.enforced);
            OK
        }
    }
}

/// Writes the effective directive of the violation at an index, as `img-src`, at the beginning of `room`, with no NUL
/// after it, and tells in `len` how many bytes it is (CSP 3, section 6.8.1, "get the effective directive for request").
///
/// `OK`; `NO` behind the last; `TOO_SHORT` where `room` has less than `len` bytes; `WRONG_HANDLE`. But for `OK` nothing
/// is written to `room`, and but for `OK` and `TOO_SHORT` nothing to `len`.
#[unsafe(no_mangle)]
pub extern "C" fn fiorrudda_violation_directive(
    violations: &mut Handle,
    at: usize,
    room: &mut [u8],
    len: &mut usize,
) -> u32
    ensures told { IsDirectiveAt at violations.old.held room.old room.new len.old len.new result }
    ensures held { violations.new.held ≡ violations.old.held }
{
    let Some(found) = violations.violations() else {
        return WRONG_HANDLE;
    };
    match found.violations.as_slice().get(at) {
        None => NO,
        Some(violation) => write(violation.directive.name().as_bytes(), room, len),
    }
}

/// Writes the URL that is reported of the violation at an index, as `fiorrudda_violation_directive` its directive: the
/// request's first URL without user name, password and fragment (CSP 3, section 5.4, "strip URL for use in reports").
///
/// The codes are the same.
#[unsafe(no_mangle)]
pub extern "C" fn fiorrudda_violation_url(
    violations: &mut Handle,
    at: usize,
    room: &mut [u8],
    len: &mut usize,
) -> u32
    ensures told { IsUrlAt at violations.old.held room.old room.new len.old len.new result }
    ensures held { violations.new.held ≡ violations.old.held }
{
    let Some(found) = violations.violations() else {
        return WRONG_HANDLE;
    };
    match found.violations.as_slice().get(at) {
        None => NO,
        Some(violation) => write(violation.url.as_slice(), room, len),
    }
}
