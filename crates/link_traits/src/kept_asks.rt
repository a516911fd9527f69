// What a link in memory was asked, kept in room that is made at the start.
ghost use Rattle.std.specs.Prelude.{◌≡◌, [], length, IfOk};
ghost use Rattle.link_traits.specs.Links.{with_bytes};
ghost use Rattle.link_traits.specs.MemoryLink.{KeptState, asks_after, finds_room, received_after, room_after};

use crate::target::Ask;
use std::alloc::Global;
use std::marker::Model;
use value_bytes::{Bytes, Items, OutOfMemory};

/// How many bytes of each part of an ask were kept, and how many of its answer were received.
#[derive(Clone, Copy)]
pub(crate) struct AskSize {
    origin: usize,
    request: usize,
    received: u64,
}

/// The asks that were kept, and the bytes of room left for more. Each takes its bytes and one more,
/// so there are at most as many as there were bytes of room, and none needs more memory.
#[derive(Drop)]
pub(crate) struct KeptAsks {
    text: Vec<u8>,
    sizes: Vec<AskSize>,
    room: usize,
}

impl Model for KeptAsks {
    ghost use Rattle.std.specs.Prelude.{◌≡◌, ◌+◌, ◌≤◌, length, map, vec_capacity, vec_len};
    ghost use Rattle.link_traits.specs.MemoryLink.{KeptState};

    ghost Value = { KeptState };

    ghost use Rattle.link_traits.specs.Private.KeptAsks.{asks_in, bytes_of};

    ghost view = { λ kept. record {
      asks = asks_in kept.sizes.items kept.text.items;
      received = map (λ size. size.received) kept.sizes.items;
      room = kept.room;
    } };

    ghost invariant = { λ kept. (vec_len kept.text + kept.room ≤ vec_capacity kept.text)
        × (vec_len kept.sizes + kept.room ≤ vec_capacity kept.sizes)
        × (bytes_of kept.sizes.items ≡ length kept.text.items) };
}

impl KeptAsks {
    // No ask, and so many bytes of room, which are reserved here, or `OutOfMemory`.
    pub(crate) fn new(alloc: Global, room: usize) -> Result<KeptAsks, OutOfMemory>
        ensures { IfOk result (λ kept. kept ≡ record { asks = []; received = []; room = room }) }
    {
        Ok(KeptAsks {
            text: Vec::with_capacity(alloc, room)?,
            sizes: Vec::with_capacity(alloc, room)?,
            room,
        })
    }

    // Keeps an ask where it finds its room, and answers whether it did.
    pub(crate) fn keep(&mut self, origin: &[u8], request: &[u8]) -> bool
        ensures kept { result ≡ finds_room self.old.room (record { origin = origin.now; request = request.now }) }
        ensures asks { self.new.asks
            ≡ asks_after self.old.room self.old.asks (record { origin = origin.now; request = request.now }) }
        ensures received { self.new.received
            ≡ received_after self.old.room self.old.received (record { origin = origin.now; request = request.now }) }
        ensures room { self.new.room
            ≡ room_after self.old.room (record { origin = origin.now; request = request.now }) }
    {
        let needed = origin.len() + request.len() + 1;
        if self.room < needed {
            return false;
        }
        let size = AskSize {
            origin: origin.len(),
            request: request.len(),
            received: 0,
        };
        match (
            self.text.extend_from_slice(origin),
            self.text.extend_from_slice(request),
            self.sizes.push(size),
        ) {
            (Ok(()), Ok(()), Ok(())) => {
                self.room -= needed;
                true
            }
            _ => unreachable!("the room was reserved"),
        }
    }

    // So many bytes more of the answer to the last ask were received.
    pub(crate) fn receive(&mut self, count: usize)
        ensures { self.new ≡ record self.old { received = with_bytes count self.old.received } }
    {
        if let Some(last) = self.sizes.pop() {
            self.sizes.push_reserved(AskSize {
                received: last.received.saturating_add(count as u64),
                ..last
            });
        }
    }

    // Copies of the asks.
    pub(crate) fn copies(&self, alloc: Global) -> Result<Items<Ask>, OutOfMemory>
        ensures { IfOk result (λ asks. asks ≡ self.now.asks) }
    {
        let mut asks = Items::new(alloc);
        let mut rest = self.text.as_slice();
        for size in self.sizes.as_slice() {
            let (origin, behind) = rest.split_at(size.origin);
            let (request, behind) = behind.split_at(size.request);
            asks.push(Ask {
                origin: Bytes::of(alloc, origin)?,
                request: Bytes::of(alloc, request)?,
            })?;
            rest = behind;
        }
        Ok(asks)
    }
}
