// Scenarios as values: documents with their scripts, the hosts that are known, the cookies that are sent, the
// servers that answer, and where servers listen. And the commands, conditions and templates of scripts.
#![tactic(auto)]

mod command;
mod document;
mod hosts;
mod laws;
mod scenario;
mod servers;
mod template;

pub use command::{Command, Script, Test};
pub use document::{Document, Documents};
pub use hosts::{Hosts, KnownHost};
pub use laws::law_scenario_is_shared;
pub use scenario::Scenario;
pub use servers::{Rule, Rules, Server, Servers};
pub use template::{is_template, next_piece};
