// A link over TCP: each request goes on a connection of its own.
ghost use Rattle.std.specs.Arc.{arc_value};
ghost use Rattle.std.specs.Prelude.{◌≡◌, ◌≤◌, [], false, None, Ok, IsErr, IsNone};
ghost use Rattle.std.specs.Io.{ReadsAtMost};
ghost use Rattle.link_traits.specs.Counts.{HasCause};
ghost use Rattle.link_tcp.specs.Routes.{address_of};
ghost use Rattle.link_tcp.specs.TcpLink.{after_ask, after_receive, opened};

use crate::routes::address_of;
use link_traits::{Failed, Faults, Link, Routes, Target};
use std::io::{Read, Write};
use std::marker::Model;
use std::net::{Net, OpenStream, TcpStream, ToSocketAddrs};
use std::str;
use std::sync::Arc;
use std::time::Duration;

/// A link over TCP. Each request is sent on a connection of its own, to the address of the first route
/// of its target's origin. It tells nothing of what a peer sends.
#[derive(Drop)]
pub struct TcpLink<R: Net> {
    network: R,
    document: u32,
    routes: Arc<Routes>,
    stream: Option<R::Stream>,
    tried: u64,
    faults: Faults,
}

impl<R: Net> Model for TcpLink<R> {
    ghost use Rattle.std.specs.Arc.{arc_value};
    ghost use Rattle.std.specs.Prelude.{is_some};
    ghost use Rattle.link_tcp.specs.TcpLink.{TcpLinkState};

    ghost Value = { TcpLinkState };

    ghost view = { λ link. record {
      document = link.document;
      routes = arc_value link.routes;
      is_open = is_some link.stream;
      tried = link.tried;
      faults = link.faults;
    } };
}

/// For how many seconds a connection may take to open, and a read or a write may wait until something moves.
const PATIENCE: u64 = 60;

// A connection to an address: to the first of its places that answers in time.
fn connected<R: Net>(network: &R, address: &str) -> Option<R::Stream> {
    let patience = Duration::from_secs(PATIENCE);
    for place in address.to_socket_addrs(network).ok()? {
        if let Ok(stream) = TcpStream::connect_timeout(network, &place, patience) {
            return Some(stream);
        }
    }
    None
}

// A connection to an address, on which the request was sent: one write where the system takes it
// whole. None where the address names no place, where nobody listens there, and where the write
// failed; and where nothing moved for so long, or the system sets no such limit.
fn send<R: Net>(network: &R, address: &[u8], request: &[u8]) -> Option<R::Stream> {
    let mut stream = connected(network, str::from_utf8(address).ok()?)?;
    let patience = Some(Duration::from_secs(PATIENCE));
    stream.set_read_timeout(patience).ok()?;
    stream.set_write_timeout(patience).ok()?;
    stream.write_all(request).ok()?;
    Some(stream)
}

impl<R: Net> TcpLink<R> {
    // A link for a document by these routes, with no connection yet.
    pub(crate) fn new(network: R, document: u32, routes: Arc<Routes>) -> TcpLink<R>
        ensures { result ≡ opened document (arc_value routes) }
    {
        TcpLink {
            network,
            document,
            routes,
            stream: None,
            tried: 0,
            faults: Faults::none(),
        }
    }

    /// The number of the document that it is for.
    pub fn document(&self) -> u32
        ensures { result ≡ self.now.document }
    {
        self.document
    }

    /// How often it failed.
    pub fn faults(&self) -> u64
        ensures { result ≡ self.now.faults }
    {
        self.faults.count()
    }
}

impl<R: Net> Link for TcpLink<R> {
    ghost State = { Unit {0} };

    ghost serves = { record { answer = λ _ _ _. []; next = λ state _ _. state } };

    ghost told = { λ link. record { state = None; left = None; asks = None; received = None; faults = link.faults } };

    /// Closes the connection of the ask before it, opens one to the address of the first route of the
    /// target's origin, and writes the request. It fails where the origin has no route, and then no
    /// connection was tried; where its address names no place or nobody listens there; where the write
    /// failed or memory was refused to the system's calls; and where for 60 seconds a place of the
    /// address did not answer, or nothing of the request was taken. No connection is open then.
    fn ask(&mut self, target: &Target, request: &[u8]) -> Result<(), Failed>
        ensures cause { HasCause self.old.faults self.new.faults result }
        ensures unrouted { IsNone (address_of self.old.routes target.now.origin)
            → IsErr result × (self.new.tried ≡ self.old.tried) }
        ensures after { self.new ≡ after_ask self.old target.now.origin result }
    {
        self.hang_up();
        let Some(address) = address_of(self.routes.as_slice(), target.origin.as_slice()) else {
            return Err(self.faults.fail());
        };
        self.tried = self.tried.saturating_add(1);
        match send(&self.network, address, request) {
            Some(stream) => {
                self.stream = Some(stream);
                Ok(())
            }
            None => Err(self.faults.fail()),
        }
    }

    /// Receives what has come of the answer, once some of it has, straight into the buffer: 0 bytes
    /// where the peer has closed the connection, or where none is open. It fails where the read does, and
    /// where nothing comes for 60 seconds.
    fn recv(&mut self, buf: &mut [u8]) -> Result<usize, Failed>
        ensures count { ReadsAtMost result buf.new }
        ensures cause { HasCause self.old.faults self.new.faults result }
        ensures closed { self.old.is_open ≡ false → result ≡ Ok 0 }
        ensures after { self.new ≡ after_receive self.old result }
    {
        let Some(stream) = &mut self.stream else {
            return Ok(0);
        };
        match stream.read(buf) {
            Ok(count) => Ok(count),
            Err(_) => Err(self.faults.fail()),
        }
    }

    /// Closes the connection.
    fn hang_up(&mut self)
        ensures faults { self.new.faults ≡ self.old.faults }
        ensures after { self.new ≡ record self.old { is_open = false } }
    {
        self.stream = None;
    }
}
