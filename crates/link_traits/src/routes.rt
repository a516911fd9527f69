// Where servers listen: what the links of a play are made by.
use value_bytes::{Bytes, Items};

/// Where the server of an origin listens: the text of the origin, and that of the address.
#[derive(Drop)]
pub struct Route {
    pub origin: Bytes,
    pub address: Bytes,
}

/// The routes, in order.
pub type Routes = Items<Route>;
