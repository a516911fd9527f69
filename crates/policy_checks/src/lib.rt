// What several rules of a fetch ask: the CORS check and the cross-origin resource policy check of an answer, the Origin
// and Referer of a request, the referrer that a policy tells, mixed content and bad ports. And what a document may
// learn of the answer to a preflight.
#![tactic(auto)]

mod cors_check;
mod mixed;
mod names;
mod origin_header;
mod ports;
mod referrer;
mod request_origin;
mod resource_policy;
mod strip;

pub use cors_check::{passes_check, passes_cors_check};
pub use mixed::{blocked, upgrade};
pub use names::has_name_among;
pub use origin_header::{origin_value, referrer_value};
pub use ports::bad_port;
pub use referrer::determine;
pub use request_origin::serialized_origin;
pub use resource_policy::{corp_blocks, is_blocked};
