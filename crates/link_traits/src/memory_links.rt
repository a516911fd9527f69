// Links in memory, handed out in order and kept when they come back.
ghost use Rattle.std.specs.Prelude.{◌≡◌, ◌+◌, ℕ, List, [], drop, slice_get, ok_or, Some, IfOk, OnOk, OnErr, option_map};
ghost use Rattle.link_traits.specs.Counts.{grown_by};
ghost use Rattle.link_traits.specs.Links.{IsForetold, TookBack, one_out};
ghost use Rattle.link_traits.specs.MemoryLinks.{after_make, after_take_back};
ghost use Rattle.link_traits.specs.declared.routes.Route.{Route};
ghost use Rattle.value_bytes.specs.declared.memory.OutOfMemory.{OutOfMemory};

use crate::MemoryLink;
use crate::links::Links;
use crate::routes::Routes;
use std::alloc::Global;
use std::collections::VecDeque;
use std::marker::Model;
use value_bytes::OutOfMemory;

/// Links in memory, which are handed out in order, whatever document they are for. It keeps those
/// that come back.
#[derive(Drop)]
pub struct MemoryLinks {
    waiting: VecDeque<MemoryLink>,
    back: Vec<MemoryLink>,
    out: usize,
    faults: u64,
}

impl Model for MemoryLinks {
    ghost use Rattle.std.specs.Prelude.{◌+◌, ◌≤◌, length, vec_capacity, vec_len};
    ghost use Rattle.link_traits.specs.MemoryLinks.{LinksState};

    ghost Value = { LinksState };

    ghost view = { λ links. record {
      waiting = links.waiting.items;
      lent = record { back = links.back.items; out = links.out };
      faults = links.faults;
    } };

    ghost invariant = { λ links. vec_len links.back + links.out + length links.waiting.items
        ≤ vec_capacity links.back };
}

impl MemoryLinks {
    /// Links to be handed out in this order, with room for all of them to be taken back, which is
    /// reserved here, or `OutOfMemory`.
    pub fn new(alloc: Global, links: Vec<MemoryLink>) -> Result<MemoryLinks, OutOfMemory>
        ensures { IfOk result (λ made. made
            ≡ record { waiting = links.items; lent = record { back = []; out = 0 }; faults = 0 }) }
    {
        Ok(MemoryLinks {
            back: Vec::with_capacity(alloc, links.len())?,
            waiting: VecDeque::from(links),
            out: 0,
            faults: 0,
        })
    }

    /// The links taken back, in order.
    pub fn taken_back(&self) -> &[MemoryLink]
        ensures { result.now ≡ self.now.lent.back }
    {
        self.back.as_slice()
    }

    /// How often the links taken back had failed.
    pub fn faults(&self) -> u64
        ensures { result ≡ self.now.faults }
    {
        self.faults
    }
}

impl Links for MemoryLinks {
    type Link = MemoryLink;

    ghost opening = { λ links k _ _. slice_get links.waiting k };

    ghost lent = { λ links. Some links.lent };

    ghost faults = { λ links. links.faults };

    /// The next link, or `OutOfMemory` where none is left.
    fn make(
        &mut self,
        _alloc: Global,
        _document: u32,
        _routes: &Routes,
    ) -> Result<MemoryLink, OutOfMemory>
        ensures told { IfOk result (λ link. IsForetold (slice_get self.old.waiting 0) link) }
        ensures later { IfOk result (λ _. (k number : ℕ) (by : List Route)
            → slice_get self.new.waiting k ≡ slice_get self.old.waiting (k + 1)) }
        ensures refused { OnErr result ((k number : ℕ) (by : List Route)
            → slice_get self.new.waiting k ≡ slice_get self.old.waiting k) }
        ensures lent { IfOk result (λ _. Some self.new.lent ≡ option_map one_out (Some self.old.lent)) }
        ensures kept { OnErr result (Some self.new.lent ≡ Some self.old.lent) }
        ensures faults { self.new.faults ≡ self.old.faults }
        ensures answer { result ≡ ok_or (slice_get self.old.waiting 0) (record {}) }
        ensures after { OnOk result (self.new ≡ after_make self.old) }
        ensures unchanged { OnErr result (self.new ≡ self.old) }
    {
        match self.waiting.pop_front() {
            Some(link) => {
                self.out += 1;
                Ok(link)
            }
            None => Err(OutOfMemory),
        }
    }

    /// Keeps the link after those that came back before, and adds the link's faults. Where no link that
    /// was handed out is still out, it keeps nothing, and only adds the faults.
    fn take_back(&mut self, link: MemoryLink)
        ensures took { TookBack (Some self.old.lent) (Some self.new.lent) link }
        ensures opening { (k number : ℕ) (by : List Route)
            → slice_get self.new.waiting k ≡ slice_get self.old.waiting k }
        ensures faults { self.new.faults ≡ grown_by self.old.faults link.faults }
        ensures after { self.new ≡ after_take_back self.old link }
    {
        self.faults = self.faults.saturating_add(link.faults());
        if self.out == 0 {
            return;
        }
        match self.back.push(link) {
            Ok(()) => self.out -= 1,
            Err(_) => unreachable!("the room was reserved"),
        }
    }
}
