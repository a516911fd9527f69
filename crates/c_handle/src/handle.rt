// A thing behind one word that C holds.
ghost use Rattle.std.specs.Prelude.{◌≡◌, ◌≢◌, Option, Some, None, MatchOption};
ghost use Rattle.c_handle.specs.Handle.{handle_owns};
ghost use Rattle.c_handle.specs.declared.thing.Thing.{Thing as Held};

use crate::codes::{OK, OUT_OF_MEMORY};
use crate::loose::Loose;
use crate::thing::Thing;
use std::alloc::Global;
use std::marker::Model;
use std::mem::replace;
use std::ptr::null_mut;

/// One word that holds a header list, a book, a client, a request, a fetch, policies or violations, or nothing: all
/// zero it is empty. It is not to be copied, written or read but by the calls below, and it is given to one call at a
/// time, and not twice to one call. What it holds is freed by `fiorrudda_free`.
#[repr(C)]
#[derive(Drop)]
pub struct Handle {
    at: *mut u8,
    ghost held: { Option Held },
}

impl Model for Handle {
    ghost also_owns = { λ handle. handle_owns handle.at handle.held };
}

impl Handle {
    ghost use Rattle.std.specs.Borrow.{sem};
    ghost use Rattle.std.specs.Prelude.{option_map};
    ghost use Rattle.c_handle.specs.Lending.{LendsThing};

    fn empty() -> Handle
        ensures { result.held ≡ None }
    {
        Handle { at: null_mut() }
    }

    fn of_loose(loose: Loose<Thing, Global>) -> Handle
        ensures { result.held ≡ Some loose.value }
    {
        let Loose { at, alloc: _ } = loose;
        Handle { at: at as *mut u8 }
    }

    fn into_loose(self, alloc: Global) -> Loose<Thing, Global>
        requires { self.held ≢ None }
        ensures { self.held ≡ Some result.value }
    {
        let Handle { at } = self;
        Loose {
            at: at as *mut Thing,
            alloc,
        }
    }

    /// What the handle holds, to be read and changed in its place.
    pub fn thing(&mut self) -> Option<&mut Thing>
        ensures* writes_back { sem 𝓛 (LendsThing self.entry result) }
        ensures value { option_map (λ thing. thing.now) result ≡ self.old.held }
    {
        if self.at.is_null() {
            return None;
        }
        Some(unsafe { &mut *(self.at as *mut Thing) })
    }

    // Takes out what the handle holds, and leaves it empty.
    fn take(&mut self, alloc: Global) -> Option<Box<Thing>>
        ensures empty { self.new.held ≡ None }
        ensures taken { MatchOption result (self.old.held ≡ None) (λ thing. self.old.held ≡ Some thing.value) }
    {
        self.thing()?;
        Some(replace(self, Handle::empty()).into_loose(alloc).into_box())
    }

    // Puts a thing into a handle that is empty: what another held would be forgotten.
    fn put(&mut self, thing: Box<Thing>)
        requires { self.old.held ≡ None }
        ensures { self.new.held ≡ Some thing.value }
    {
        *self = Handle::of_loose(Loose::of(thing));
    }

    /// Frees what the handle holds, and leaves it empty.
    pub fn clear(&mut self, alloc: Global)
        ensures { self.new.held ≡ None }
    {
        drop(self.take(alloc));
    }

    /// Has the handle hold this thing, and frees what it held. Where memory is refused it holds what it held.
    pub fn fill(&mut self, alloc: Global, thing: Thing) -> u32
        ensures ok { result ≡ OK → self.new.held ≡ Some thing }
        ensures out_of_memory { result ≢ OK → (result ≡ OUT_OF_MEMORY) × (self.new.held ≡ self.old.held) }
    {
        match Box::new(alloc, thing) {
            Ok(thing) => {
                self.clear(alloc);
                self.put(thing);
                OK
            }
            Err(_) => OUT_OF_MEMORY,
        }
    }
}
