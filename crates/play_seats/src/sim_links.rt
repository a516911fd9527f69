// The links of a play's documents to scripted servers.
ghost use Rattle.std.specs.Prelude.{◌≡◌, ◌+◌, ℕ, List, [], Ok, Some, IfOk, OnErr, option_map};
ghost use Rattle.link_traits.specs.Links.{IsForetold, one_out};
ghost use Rattle.link_traits.specs.declared.routes.Route.{Route};
ghost use Rattle.script_scenarios.specs.Valid.{IsValid};
ghost use Rattle.play_seats.specs.Sim.{fault_count, not_lent};

use crate::sim_link::SimLink;
use link_traits::{Links, Routes};
use script_scenarios::{Scenario, Servers};
use std::alloc::Global;
use std::marker::Model;
use value_bytes::OutOfMemory;

/// Links to the scripted servers of a scenario, each like the other. One can always be made, and none
/// fails.
#[derive(Drop)]
pub struct SimLinks<'a> {
    servers: &'a Servers,
    piece: usize,
}

// It is seen as the link that it makes.
impl<'a> Model for SimLinks<'a> {
    ghost use Rattle.std.specs.Prelude.{◌≤◌, []};
    ghost use Rattle.play_seats.specs.Sim.{SimState};

    ghost Value = { SimState };

    ghost view = { λ links. record { servers = links.servers.now; piece = links.piece; left = [] } };

    ghost invariant = { λ links. 1 ≤ links.piece };
}

impl<'a> SimLinks<'a> {
    /// Links to the servers of a valid scenario.
    pub fn new(scenario: &'a Scenario) -> SimLinks<'a>
        requires { IsValid scenario.now }
        ensures { result
            ≡ record { servers = scenario.entry.now.servers; piece = scenario.entry.now.piece; left = [] } }
    {
        SimLinks {
            servers: &scenario.servers,
            piece: scenario.piece as usize,
        }
    }
}

impl<'a> Links for SimLinks<'a> {
    type Link = SimLink<'a>;

    ghost opening = { λ links _ _ _. Some links };

    ghost lent = { λ _. not_lent };

    ghost faults = { λ _. fault_count };

    /// A link with no answer to come, whatever the document and the routes. It is never refused.
    fn make(
        &mut self,
        _alloc: Global,
        _document: u32,
        _routes: &Routes,
    ) -> Result<SimLink<'a>, OutOfMemory>
        ensures told { IfOk result (λ link. IsForetold (Some self.old) link) }
        ensures later { IfOk result (λ _. (k number : ℕ) (by : List Route) → Some self.new ≡ Some self.old) }
        ensures refused { OnErr result ((k number : ℕ) (by : List Route) → Some self.new ≡ Some self.old) }
        ensures lent { IfOk result (λ _. not_lent ≡ option_map one_out not_lent) }
        ensures kept { OnErr result (not_lent ≡ not_lent) }
        ensures faults { fault_count ≡ fault_count }
        ensures answer { result ≡ Ok self.old }
    {
        Ok(SimLink::to(self.servers, self.piece))
    }

    /// Drops the link.
    fn take_back(&mut self, _link: SimLink<'a>) {}
}
