// The top call of an audit: words and streams in, a status out.
#![tactic(auto)]

mod complaint;
mod line;
mod program;

pub use line::line_of;
pub use program::{AuditStatus, playaudit};
