// The end of what a handle holds.
ghost use Rattle.std.specs.Prelude.{◌≡◌, None};

use c_handle::Handle;
use std::alloc::Global;

/// Frees what a handle holds, and leaves it empty. An empty handle stays so. A book that threads share is freed under
/// their lock, or when the others are done with it.
#[unsafe(no_mangle)]
pub extern "C" fn fiorrudda_free(alloc: Global, handle: &mut Handle)
    ensures { handle.new.held ≡ None }
{
    handle.clear(alloc);
}
