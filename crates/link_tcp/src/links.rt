// The links of a play's documents over TCP.
ghost use Rattle.std.specs.Prelude.{◌≡◌, IfOk, None, Some};
ghost use Rattle.link_traits.specs.Counts.{grown_by};
ghost use Rattle.link_tcp.specs.TcpLink.{opened};

use crate::link::TcpLink;
use crate::routes::shared;
use link_traits::{Links, Routes};
use std::alloc::Global;
use std::marker::Model;
use std::net::Net;
use std::sync::Arc;
use value_bytes::OutOfMemory;

/// Links over TCP, seen as how often those taken back had failed. It tells each link that
/// it makes, and not those that it took back. Links that are made by the same routes share them.
#[derive(Drop)]
pub struct TcpLinks<R: Net> {
    network: R,
    faults: u64,
    shared: Option<Arc<Routes>>,
}

impl<R: Net> Model for TcpLinks<R> {
    ghost use Rattle.std.specs.Prelude.{ℕ};

    ghost Value = { ℕ };

    ghost view = { λ links. links.faults };
}

impl<R: Net> TcpLinks<R> {
    /// Links over this network, with their count at 0.
    pub fn new(network: R) -> TcpLinks<R>
        ensures { result ≡ 0 }
    {
        TcpLinks {
            network,
            faults: 0,
            shared: None,
        }
    }

    /// How often the links taken back had failed.
    pub fn faults(&self) -> u64
        ensures { result ≡ self.now }
    {
        self.faults
    }
}

impl<R: Net + Copy + Send> Links for TcpLinks<R>
where
    R::Stream: Send,
{
    type Link = TcpLink<R>;

    ghost opening = { λ _ _ document routes. Some (opened document routes) };

    ghost lent = { λ _. None };

    ghost faults = { λ links. links };

    /// A link for the document by these routes, or `OutOfMemory`. It is not connected yet.
    fn make(
        &mut self,
        alloc: Global,
        document: u32,
        routes: &Routes,
    ) -> Result<TcpLink<R>, OutOfMemory>
        ensures made { IfOk result (λ link. link ≡ opened document routes.now) }
        ensures unchanged { self.new ≡ self.old }
    {
        let routes = shared(alloc, self.shared.as_ref(), routes)?;
        self.shared = Some(Arc::try_clone(&routes)?);
        Ok(TcpLink::new(self.network, document, routes))
    }

    /// Counts the faults of the link, and closes its connection.
    fn take_back(&mut self, link: TcpLink<R>)
        ensures { self.new ≡ grown_by self.old link.faults }
    {
        self.faults = self.faults.saturating_add(link.faults());
    }
}
