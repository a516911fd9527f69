// Handles of C: what one holds, and how a call tells its answer.
#![tactic(auto)]

mod codes;
mod found;
mod handle;
mod kinds;
mod laws;
mod loose;
mod telling;
mod thing;

pub use codes::{
    NO, NO_REQUEST, NO_SUCH_NUMBER, NOT_A_HEADER, NOT_A_HOST, NOT_A_URL, NOT_AWAITED, NOT_HTTP, OK,
    OUT_OF_MEMORY, TOO_LATE, TOO_SHORT, WRONG_HANDLE,
};
pub use found::Found;
pub use handle::Handle;
pub use laws::{law_codes, law_handle_crosses};
pub use telling::{code_of, told, write, write_answer, write_text, yes_or_no};
pub use thing::Thing;
