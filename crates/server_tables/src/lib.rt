// A CORS server from an allow table: which origin may call with which methods, header names and credentials.
#![tactic(auto)]

mod laws;
mod listen;
mod read;
mod replies;
mod serving;
mod table;

pub use laws::law_one_reply;
pub use read::{BadLine, read_table};
pub use replies::answer;
pub use serving::{Served, serve};
pub use table::{AllowTable, Row};
