// A link to the scripted servers of a scenario.
ghost use Rattle.std.specs.Prelude.{◌≡◌, ◌⊎◌, ◌<◌, ◌≤◌, ◌++◌, [], List, take, drop, length};
ghost use Rattle.std.specs.Prelude.{Some, Ok, IfOk, OnOk, OnErr};
ghost use Rattle.std.specs.Io.{ReadsAtMost};
ghost use Rattle.link_traits.specs.Counts.{HasCause};
ghost use Rattle.link_traits.specs.Links.{Asked, Awaits, MayHaveAsked, Received};
ghost use Rattle.link_traits.specs.Sources.{Gave, IsAtEnd};
ghost use Rattle.script_scenarios.specs.Valid.{IsValid};
ghost use Rattle.script_scenarios.specs.declared.servers.Server.{Server};
ghost use Rattle.play_seats.specs.Sim.{after_receive, answer_to, fault_count, received, told_asks, told_counts};

use crate::request::{method_of, target_of};
use link_traits::{Failed, Link, Target};
use script_scenarios::{Scenario, Servers};
use std::marker::Model;

/// A link to the scripted servers of a scenario. It never fails, takes no memory, and tells neither
/// what it was asked nor how much of each answer was received.
#[derive(Drop)]
pub struct SimLink<'a> {
    servers: &'a Servers,
    piece: usize,
    left: &'a [u8],
}

impl<'a> Model for SimLink<'a> {
    ghost use Rattle.std.specs.Prelude.{◌≤◌};
    ghost use Rattle.play_seats.specs.Sim.{SimState};

    ghost Value = { SimState };

    ghost view = { λ link. record { servers = link.servers.now; piece = link.piece; left = link.left.now } };

    ghost invariant = { λ link. 1 ≤ link.piece };
}

impl<'a> SimLink<'a> {
    /// A link to the servers of a valid scenario, with no answer to come. Its answers come in pieces
    /// of the scenario's size.
    pub fn new(scenario: &'a Scenario) -> SimLink<'a>
        requires { IsValid scenario.now }
        ensures { result
            ≡ record { servers = scenario.entry.now.servers; piece = scenario.entry.now.piece; left = [] } }
    {
        SimLink::to(&scenario.servers, scenario.piece as usize)
    }

    // A link to servers, with no answer to come, whose answers come in pieces of this size.
    pub(crate) fn to(servers: &'a Servers, piece: usize) -> SimLink<'a>
        requires { 1 ≤ piece }
        ensures { result ≡ record { servers = servers.now; piece = piece; left = [] } }
    {
        SimLink {
            servers,
            piece,
            left: &[],
        }
    }
}

impl<'a> Link for SimLink<'a> {
    ghost State = { List Server };

    ghost serves = { record { answer = answer_to; next = λ servers _ _. servers } };

    ghost told = { λ link. record {
      state = Some link.servers;
      left = Some link.left;
      asks = told_asks;
      received = told_counts;
      faults = fault_count;
    } };

    /// Asks the scripted server of the target's origin. The answer is then to come: that of the
    /// first rule for the request's method and target, which its first line gives. It never fails.
    fn ask(&mut self, target: &Target, request: &[u8]) -> Result<(), Failed>
        ensures state { Some self.new.servers ≡ Some self.old.servers }
        ensures answered { OnOk result (Some self.new.left
            ≡ Some (answer_to self.old.servers target.now.origin request.now)) }
        ensures asked { OnOk result (Asked told_asks told_asks
            (record { origin = target.now.origin; request = request.now })) }
        ensures failed { OnErr result (MayHaveAsked told_asks told_asks
            (record { origin = target.now.origin; request = request.now })) }
        ensures awaits { OnOk result (Awaits told_counts told_counts) }
        ensures may_await { OnErr result (Awaits told_counts told_counts ⊎ (told_counts ≡ told_counts)) }
        ensures cause { HasCause fault_count fault_count result }
        ensures answer { result ≡ Ok tt }
        ensures after { self.new
            ≡ record self.old { left = answer_to self.old.servers target.now.origin request.now } }
    {
        let origin = target.origin.as_slice();
        self.left = self
            .servers
            .answer(origin, method_of(request), target_of(request));
        Ok(())
    }

    /// Gives the least of the buffer, the piece and the rest of the answer. It never fails.
    fn recv(&mut self, buf: &mut [u8]) -> Result<usize, Failed>
        ensures count { ReadsAtMost result buf.new }
        ensures gave { IfOk result (λ n. Gave (Some self.old.left) (Some self.new.left) (take n buf.new)) }
        ensures end { result ≡ Ok 0 → 0 < length buf.new → IsAtEnd (Some self.new.left) }
        ensures failed { OnErr result (Some self.new.left ≡ Some self.old.left) }
        ensures state { Some self.new.servers ≡ Some self.old.servers }
        ensures asks { told_asks ≡ told_asks }
        ensures received { IfOk result (λ n. Received n told_counts told_counts) }
        ensures unreceived { OnErr result (told_counts ≡ told_counts) }
        ensures cause { HasCause fault_count fault_count result }
        ensures answer { result ≡ Ok (received self.old (length buf.old)) }
        ensures after { self.new ≡ after_receive self.old (received self.old (length buf.old)) }
        ensures given { IfOk result (λ n. buf.new ≡ take n self.old.left ++ drop n buf.old) }
    {
        let count = buf.len().min(self.piece).min(self.left.len());
        let (front, rest) = self.left.split_at(count);
        buf[..count].copy_from_slice(front);
        self.left = rest;
        Ok(count)
    }

    /// Drops the rest of the answer.
    fn hang_up(&mut self)
        ensures end { IsAtEnd (Some self.new.left) }
        ensures state { Some self.new.servers ≡ Some self.old.servers }
        ensures asks { told_asks ≡ told_asks }
        ensures received { told_counts ≡ told_counts }
        ensures faults { fault_count ≡ fault_count }
        ensures after { self.new ≡ record self.old { left = [] } }
    {
        self.left = &[];
    }
}
