// The table of routes.
ghost use Rattle.script_reading.specs.Scenarios as spec;

use crate::texts::OriginText;
use link_traits::Route;
use std::alloc::Global;
use value_json::{AnyText, Form, PairOf, Refused, TextThat, Tree};

const ROUTE: PairOf<TextThat<OriginText>, TextThat<AnyText>> = PairOf {
    first: TextThat { test: OriginText },
    second: TextThat { test: AnyText },
};

/// A serialized origin, and the address at which its server listens.
#[derive(Drop)]
pub(crate) struct RoutePair;

impl Form for RoutePair {
    type Out = Route;

    ghost reads = { λ _. spec.route_of };

    fn read(&self, alloc: Global, tree: &Tree<'_, '_>) -> Result<Route, Refused> {
        let (origin, address) = ROUTE.read(alloc, tree)?;
        Ok(Route { origin, address })
    }
}
