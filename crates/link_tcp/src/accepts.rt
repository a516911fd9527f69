// Listens for connections over TCP, and accepts them.
ghost use Rattle.std.specs.Prelude.{◌≡◌, ◌≤◌, false, None, IfOk, IsErr};
ghost use Rattle.link_traits.specs.Counts.{HasCause};
ghost use Rattle.link_tcp.specs.TcpAccepts.{after_listen, after_next, fresh_end};

use crate::end::TcpEnd;
use link_traits::{Accepts, Failed, Faults};
use std::marker::Model;
use std::net::{Net, OpenListener, TcpListener};
use std::str;

/// Accepts connections over TCP, one after the other. It tells nothing of the connections that come.
#[derive(Drop)]
pub struct TcpAccepts<'a, R: Net> {
    network: &'a R,
    listener: Option<R::Listener>,
    faults: Faults,
}

impl<'a, R: Net> Model for TcpAccepts<'a, R> {
    ghost use Rattle.std.specs.Prelude.{is_some};
    ghost use Rattle.link_tcp.specs.TcpAccepts.{TcpAcceptsState};

    ghost Value = { TcpAcceptsState };

    ghost view = { λ accepts. record { is_open = is_some accepts.listener; faults = accepts.faults } };
}

// A listener at an address. None where the address names no place, and where nobody can listen there.
fn listener_at<R: Net>(network: &R, address: &[u8]) -> Option<R::Listener> {
    let address = str::from_utf8(address).ok()?;
    TcpListener::bind(network, address).ok()
}

impl<'a, R: Net> TcpAccepts<'a, R> {
    /// Accepts connections over this network, once it listens at an address.
    pub fn new(rt: &'a R) -> TcpAccepts<'a, R>
        ensures { result ≡ record { is_open = false; faults = 0 } }
    {
        TcpAccepts {
            network: rt,
            listener: None,
            faults: Faults::none(),
        }
    }

    /// How often it failed.
    pub fn faults(&self) -> u64
        ensures { result ≡ self.now.faults }
    {
        self.faults.count()
    }
}

impl<'a, R: Net> Accepts for TcpAccepts<'a, R> {
    type End = TcpEnd<R>;

    ghost opened = { λ _. None };

    ghost coming = { λ _. None };

    ghost lent = { λ _. None };

    ghost faults = { λ accepts. accepts.faults };

    /// Listens at an address of a host and a port, `HOST:PORT`, and no longer at the one before it. It fails
    /// where the address names no place, or nobody can listen there.
    fn listen(&mut self, address: &[u8]) -> Result<(), Failed>
        ensures cause { HasCause self.old.faults self.new.faults result }
        ensures after { self.new ≡ after_listen self.old result }
    {
        match listener_at(self.network, address) {
            Some(listener) => {
                self.listener = Some(listener);
                Ok(())
            }
            None => Err(self.faults.fail()),
        }
    }

    /// The end of the next connection, once one comes. It fails where no address is listened at, and where
    /// the system gives no connection.
    fn next(&mut self) -> Result<TcpEnd<R>, Failed>
        ensures cause { HasCause self.old.faults self.new.faults result }
        ensures fresh { IfOk result (λ given. given ≡ fresh_end) }
        ensures closed { self.old.is_open ≡ false → IsErr result }
        ensures after { self.new ≡ after_next self.old result }
    {
        let Some(listener) = &self.listener else {
            return Err(self.faults.fail());
        };
        match listener.accept() {
            Ok((stream, _)) => Ok(TcpEnd::new(stream)),
            Err(_) => Err(self.faults.fail()),
        }
    }

    /// Closes the connection.
    fn take_back(&mut self, _end: TcpEnd<R>)
        ensures unchanged { self.new ≡ self.old }
    {}
}
