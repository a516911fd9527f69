// Connections in memory that come in order, with failures at chosen calls.
ghost use Rattle.std.specs.Prelude.{◌≡◌, ◌≤◌, [], None, Some, IfOk, OnOk, OnErr, option_copied, option_map};
ghost use Rattle.link_traits.specs.Accepts.{GaveFirst, Opened};
ghost use Rattle.link_traits.specs.Counts.{HasCause};
ghost use Rattle.link_traits.specs.Links.{TookBack, one_out};
ghost use Rattle.link_traits.specs.MemoryAccepts.{after_listen, after_next, after_return, listen_answer, next_answer};

use crate::accepts::Accepts;
use crate::faults::Faults;
use crate::memory_end::MemoryEnd;
use crate::source::Failed;
use std::alloc::Global;
use std::collections::VecDeque;
use std::marker::Model;
use value_bytes::OutOfMemory;

/// Ends of connections in memory, which are given in order, whatever address is listened at. It keeps
/// those that come back. It fails at an address that does not find its room, at chosen calls of `next`
/// and where no end is left, and nowhere else.
#[derive(Drop)]
pub struct MemoryAccepts {
    address: Vec<u8>,
    room: usize,
    is_open: bool,
    coming: VecDeque<MemoryEnd>,
    back: Vec<MemoryEnd>,
    out: usize,
    calls: u64,
    failing_calls: Vec<u64>,
    faults: Faults,
}

impl Model for MemoryAccepts {
    ghost use Rattle.std.specs.Prelude.{◌+◌, ◌≤◌, length, vec_capacity, vec_len, None, Some, if◌then◌else◌};
    ghost use Rattle.link_traits.specs.MemoryAccepts.{AcceptsState};

    ghost Value = { AcceptsState };

    ghost view = { λ accepts. record {
      opened = if accepts.is_open then Some accepts.address.items else None;
      room = accepts.room;
      coming = accepts.coming.items;
      lent = record { back = accepts.back.items; out = accepts.out };
      calls = accepts.calls;
      failing_calls = accepts.failing_calls.items;
      faults = accepts.faults;
    } };

    ghost invariant = { λ accepts. (accepts.room ≤ vec_capacity accepts.address)
        × (vec_len accepts.back + accepts.out + length accepts.coming.items ≤ vec_capacity accepts.back) };
}

impl MemoryAccepts {
    /// Ends to be given in this order, with room for an address of so many bytes and for all ends to be
    /// taken back, which is reserved here, or `OutOfMemory`. It fails at the calls of `next` whose
    /// numbers, counted from 1, are in `fails`.
    pub fn new(
        alloc: Global,
        ends: Vec<MemoryEnd>,
        room: usize,
        fails: Vec<u64>,
    ) -> Result<MemoryAccepts, OutOfMemory>
        ensures { IfOk result (λ made. made ≡ record {
          opened = None;
          room = room;
          coming = ends.items;
          lent = record { back = []; out = 0 };
          calls = 0;
          failing_calls = fails.items;
          faults = 0;
        }) }
    {
        Ok(MemoryAccepts {
            address: Vec::with_capacity(alloc, room)?,
            room,
            is_open: false,
            back: Vec::with_capacity(alloc, ends.len())?,
            coming: VecDeque::from(ends),
            out: 0,
            calls: 0,
            failing_calls: fails,
            faults: Faults::none(),
        })
    }

    /// The address that is open, if one is.
    pub fn opened(&self) -> Option<&[u8]>
        ensures { option_copied result ≡ self.now.opened }
    {
        if self.is_open {
            Some(self.address.as_slice())
        } else {
            None
        }
    }

    /// The ends taken back, in order.
    pub fn taken_back(&self) -> &[MemoryEnd]
        ensures { result.now ≡ self.now.lent.back }
    {
        self.back.as_slice()
    }

    /// How often it failed.
    pub fn faults(&self) -> u64
        ensures { result ≡ self.now.faults }
    {
        self.faults.count()
    }
}

impl Accepts for MemoryAccepts {
    type End = MemoryEnd;

    ghost opened = { λ accepts. Some accepts.opened };

    ghost coming = { λ accepts. Some accepts.coming };

    ghost lent = { λ accepts. Some accepts.lent };

    ghost faults = { λ accepts. accepts.faults };

    /// Notes the address, or fails where it has more bytes than there is room for.
    fn listen(&mut self, address: &[u8]) -> Result<(), Failed>
        ensures opened { OnOk result (Opened (Some self.old.opened) (Some self.new.opened) address.now) }
        ensures failed { OnErr result (Some self.new.opened ≡ Some self.old.opened) }
        ensures coming { Some self.new.coming ≡ Some self.old.coming }
        ensures lent { Some self.new.lent ≡ Some self.old.lent }
        ensures cause { HasCause self.old.faults self.new.faults result }
        ensures answer { result ≡ listen_answer self.old address.now }
        ensures after { self.new ≡ after_listen self.old address.now result }
    {
        if address.len() > self.room {
            return Err(self.faults.fail());
        }
        self.address.clear();
        match self.address.extend_from_slice(address) {
            Ok(()) => {
                self.is_open = true;
                Ok(())
            }
            Err(_) => unreachable!("the room was reserved"),
        }
    }

    /// The first of the ends still to come, or fails as its number says, or where no end is left.
    fn next(&mut self) -> Result<MemoryEnd, Failed>
        ensures gave { IfOk result (λ given. GaveFirst (Some self.old.coming) (Some self.new.coming) given) }
        ensures lent { IfOk result (λ _. Some self.new.lent ≡ option_map one_out (Some self.old.lent)) }
        ensures failed { OnErr result (Some self.new.coming ≡ Some self.old.coming) }
        ensures kept { OnErr result (Some self.new.lent ≡ Some self.old.lent) }
        ensures opened { Some self.new.opened ≡ Some self.old.opened }
        ensures cause { HasCause self.old.faults self.new.faults result }
        ensures answer { result ≡ next_answer self.old }
        ensures after { self.new ≡ after_next self.old result }
    {
        self.calls = self.calls.saturating_add(1);
        if self.failing_calls.contains(&self.calls) {
            return Err(self.faults.fail());
        }
        match self.coming.pop_front() {
            Some(end) => {
                self.out += 1;
                Ok(end)
            }
            None => Err(self.faults.fail()),
        }
    }

    /// Keeps the end after those that came back before. Where no end that was given is still out, it keeps
    /// nothing.
    fn take_back(&mut self, end: MemoryEnd)
        ensures took { TookBack (Some self.old.lent) (Some self.new.lent) end }
        ensures opened { Some self.new.opened ≡ Some self.old.opened }
        ensures coming { Some self.new.coming ≡ Some self.old.coming }
        ensures faults { self.new.faults ≡ self.old.faults }
        ensures after { self.new ≡ after_return self.old end }
    {
        if self.out == 0 {
            return;
        }
        match self.back.push(end) {
            Ok(()) => self.out -= 1,
            Err(_) => unreachable!("the room was reserved"),
        }
    }
}
