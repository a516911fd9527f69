// Origins, after the HTML Standard, section 7.1.1: which are the same, of one site, or trustworthy.
#![tactic(auto)]

mod laws;
mod names;
mod origin;
mod site;
mod trust;

pub use laws::law_serialized_as_url;
pub use names::{is_local_name, without_last_dot};
pub use origin::{
    HostKind, Origin, have_same_origin, is_default_port, is_host_of, is_http_url, is_origin_of,
    origin_of, port_of, same_origin, serialize, serialize_origin_of, tuple_origin,
};
pub use site::same_site;
pub use trust::{is_trustworthy, is_trustworthy_url};
