// The table of known hosts.
ghost use Rattle.script_reading.specs.Scenarios as spec;
ghost use Rattle.value_requests.specs.HostNames as hosts;

use script_scenarios::KnownHost;
use std::alloc::Global;
use value_bytes::OutOfMemory;
use value_json::{Form, Number, Refused, TextTest, TextThat, Tree, Truth, only_keys, required};
use value_requests::is_host_name;

const KEYS: &[&str] = &["host", "subdomains", "until"];

const HOST: TextThat<HostName> = TextThat { test: HostName };

const UNTIL: Number = Number {
    least: 0,
    most: 281_474_976_710_655,
};

// A domain as a URL has it.
#[derive(Drop)]
struct HostName;

impl TextTest for HostName {
    ghost taken = { λ _. hosts.is_host_name };

    fn takes(&self, alloc: Global, text: &str) -> Result<bool, OutOfMemory> {
        is_host_name(alloc, text)
    }
}

/// A known host: its domain, whether the names under it are known, and the second in which its term
/// ends.
#[derive(Drop)]
pub(crate) struct HostTable;

impl Form for HostTable {
    type Out = KnownHost;

    ghost reads = { λ _. spec.host_of };

    fn read(&self, alloc: Global, tree: &Tree<'_, '_>) -> Result<KnownHost, Refused> {
        only_keys(alloc, tree, KEYS)?;
        let host = required(alloc, tree, "host", &HOST)?;
        let subdomains = required(alloc, tree, "subdomains", &Truth)?;
        let until = required(alloc, tree, "until", &UNTIL)?;
        Ok(KnownHost {
            host,
            subdomains,
            until,
        })
    }
}
