// The address of an origin's server, and routes that links share.
ghost use Rattle.std.specs.Arc.{arc_value};
ghost use Rattle.std.specs.Prelude.{◌≡◌, IfOk, IsTrue, option_copied};
ghost use Rattle.link_tcp.specs.Routes as spec;

use link_traits::{Route, Routes};
use std::alloc::Global;
use std::sync::Arc;
use value_bytes::OutOfMemory;

// The address of the first route of the origin.
pub(crate) fn address_of<'a>(routes: &'a [Route], origin: &[u8]) -> Option<&'a [u8]>
    ensures { option_copied result ≡ spec.address_of routes.now origin.now }
{
    routes
        .iter()
        .find(|route| route.origin.as_slice() == origin)
        .map(|route| route.address.as_slice())
}

// Whether two lists have the same routes.
fn are_same(some: &[Route], others: &[Route]) -> bool
    ensures { IsTrue result → some.now ≡ others.now }
{
    if some.len() != others.len() {
        return false;
    }
    for i in 0..some.len() {
        let (one, other) = (&some[i], &others[i]);
        if one.origin.as_slice() != other.origin.as_slice()
            || one.address.as_slice() != other.address.as_slice()
        {
            return false;
        }
    }
    true
}

// The routes, to be shared: those that were shared last where they are the same, and else a copy.
pub(crate) fn shared(
    alloc: Global,
    last: Option<&Arc<Routes>>,
    routes: &Routes,
) -> Result<Arc<Routes>, OutOfMemory>
    ensures { IfOk result (λ made. arc_value made ≡ routes.now) }
{
    if let Some(shared) = last {
        if are_same(shared.as_slice(), routes.as_slice()) {
            return Ok(Arc::try_clone(shared)?);
        }
    }
    Ok(Arc::new(alloc, copy_of(alloc, routes)?)?)
}

// A copy of the routes.
fn copy_of(alloc: Global, routes: &Routes) -> Result<Routes, OutOfMemory>
    ensures { IfOk result (λ copy. copy ≡ routes.now) }
{
    let mut copy = Routes::new(alloc);
    for route in routes.as_slice() {
        copy.push(Route {
            origin: route.origin.copy(alloc)?,
            address: route.address.copy(alloc)?,
        })?;
    }
    Ok(copy)
}
