// Reports of violations: the requests that a document's violations come to, and their delivery.
#![tactic(auto)]

mod body;
mod delivery;
mod endpoint;
mod laws;
mod queue;
mod requests;

pub use delivery::{Delivered, DeliveredEnd, deliver};
pub use laws::law_first_urls;
pub use requests::{Reports, report_requests};
