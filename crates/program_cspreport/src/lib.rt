// The program of reports: words and streams in, a status out.
#![tactic(auto)]

mod complaint;
mod program;
mod text;
mod words;

pub use program::{ReportStatus, cspreport, read_reported};
pub use text::write_reports;
