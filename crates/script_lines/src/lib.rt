// The printed lines of an event, told piece by piece to what prints or counts them.
#![tactic(auto)]

mod calls;
mod counter;
mod escape;
mod laws;
mod lines;
mod receiver;

pub use calls::tell_call;
pub use counter::event_len;
pub use escape::{are_plain, is_plain};
pub use laws::law_event_length;
pub use lines::tell_event;
pub use receiver::Receiver;
