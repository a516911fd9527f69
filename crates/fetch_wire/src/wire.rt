// A wire over a link: it keeps what was received and is not yet read.
ghost use Rattle.std.specs.Prelude.{◌≡◌, ◌≤◌, ◌<◌, ◌+◌, [], length, drop, take, true, false, Ok, IfOk, OnOk, OnErr};
ghost use Rattle.link_traits.specs.Counts.{HasCause};
ghost use Rattle.link_traits.specs.Links.{Received};
ghost use Rattle.link_traits.specs.Sources.{Gave, IsAtEnd};

use link_http1::Framing;
use link_traits::{Failed, Link};
use std::alloc::Global;
use value_bytes::OutOfMemory;

/// How many bytes are received at once at most.
pub(crate) const RECEIVED: usize = 4_096;

/// A wire over a link, which each call is lent: a buffer for what the link gives; from where to where the
/// buffer has bytes that were received and not yet read, the window; and how the body of the last head is
/// framed.
#[derive(Drop)]
pub struct Wire {
    pub(crate) buffer: Vec<u8>,
    pub(crate) from: usize,
    pub(crate) to: usize,
    pub(crate) framing: Framing,
    pub ghost ordered: { from ≤ to },
    pub ghost within: { to ≤ length buffer.items },
    pub ghost size: { length buffer.items ≡ 4096 },
}

// Receives at most so many bytes at the front of the buffer, and answers how many.
fn receive<L: Link>(link: &mut L, buffer: &mut [u8], most: usize) -> Result<usize, Failed>
    requires some { 0 < most }
    requires room { 0 < length buffer.old }
    ensures state { (L.told link.new).state ≡ (L.told link.old).state }
    ensures length { length buffer.new ≡ length buffer.old }
    ensures within { IfOk result (λ count. count ≤ length buffer.new) }
    ensures few { IfOk result (λ count. count ≤ most) }
    ensures gave { IfOk result (λ count. Gave (L.told link.old).left (L.told link.new).left (take count buffer.new)) }
    ensures end { result ≡ Ok 0 → IsAtEnd (L.told link.new).left }
    ensures failed { OnErr result ((L.told link.new).left ≡ (L.told link.old).left) }
    ensures received { IfOk result (λ count. Received count (L.told link.old).received (L.told link.new).received) }
    ensures unreceived { OnErr result ((L.told link.new).received ≡ (L.told link.old).received) }
    ensures cause { HasCause (L.told link.old).faults (L.told link.new).faults result }
{
    let room = buffer.len().min(most);
    link.recv(&mut buffer[..room])
}

// Receives bytes into the buffer after its first `behind` bytes, which stay as they are, and answers how many came.
fn receive_behind<L: Link>(link: &mut L, buffer: &mut [u8], behind: usize) -> Result<usize, Failed>
    requires { behind < length buffer.old }
    ensures state { (L.told link.new).state ≡ (L.told link.old).state }
    ensures length { length buffer.new ≡ length buffer.old }
    ensures within { IfOk result (λ count. behind + count ≤ length buffer.new) }
    ensures kept { take behind buffer.new ≡ take behind buffer.old }
    ensures gave { IfOk result (λ count. Gave (L.told link.old).left (L.told link.new).left
        (take count (drop behind buffer.new))) }
    ensures end { result ≡ Ok 0 → IsAtEnd (L.told link.new).left }
    ensures failed { OnErr result ((L.told link.new).left ≡ (L.told link.old).left) }
    ensures received { IfOk result (λ count. Received count (L.told link.old).received (L.told link.new).received) }
    ensures unreceived { OnErr result ((L.told link.new).received ≡ (L.told link.old).received) }
    ensures cause { HasCause (L.told link.old).faults (L.told link.new).faults result }
{
    link.recv(&mut buffer[behind..])
}

impl Wire {
    ghost use Rattle.fetch_wire.specs.Exchanges.{IsIdle};
    ghost use Rattle.fetch_wire.specs.Private.Reads.{Gathers};
    ghost use Rattle.fetch_wire.specs.Wires.{exchange_of, window_of};

    /// A wire over a link, with a buffer of 4,096 bytes. Nothing is to come: the link is hung up.
    pub fn new<L: Link>(alloc: Global, link: &mut L) -> Result<Wire, OutOfMemory>
        ensures idle { IfOk result (λ wire. IsIdle (exchange_of L.told link.new wire)) }
        ensures state { (L.told link.new).state ≡ (L.told link.old).state }
        ensures received { (L.told link.new).received ≡ (L.told link.old).received }
        ensures faults { (L.told link.new).faults ≡ (L.told link.old).faults }
    {
        let mut wire = Wire {
            buffer: vec![in alloc; 0u8; RECEIVED]?,
            from: 0,
            to: 0,
            framing: Framing::Nothing,
        };
        wire.close(link);
        Ok(wire)
    }

    /// Hangs up: nothing is to come any more.
    #[tactic(auto, using(crate::proofs::WireLemmas::onto_nothing))]
    pub fn close<L: Link>(&mut self, link: &mut L)
        ensures idle { IsIdle (exchange_of L.told link.new self.new) }
        ensures state { (exchange_of L.told link.new self.new).state
            ≡ (exchange_of L.told link.old self.old).state }
        ensures received { (exchange_of L.told link.new self.new).received
            ≡ (exchange_of L.told link.old self.old).received }
        ensures faults { (exchange_of L.told link.new self.new).faults
            ≡ (exchange_of L.told link.old self.old).faults }
    {
        self.hang_up(link);
    }

    // Hangs up, and empties the window.
    pub(crate) fn hang_up<L: Link>(&mut self, link: &mut L)
        ensures window { window_of self.new ≡ [] }
        ensures end { IsAtEnd (L.told link.new).left }
        ensures framing { self.new.framing ≡ Framing.Nothing }
        ensures state { (L.told link.new).state ≡ (L.told link.old).state }
        ensures received { (L.told link.new).received ≡ (L.told link.old).received }
        ensures faults { (L.told link.new).faults ≡ (L.told link.old).faults }
    {
        link.hang_up();
        self.break_off();
    }

    // Drops what was received and not yet read. No body is to be read.
    pub(crate) fn break_off(&mut self)
        ensures window { window_of self.new ≡ [] }
        ensures framing { self.new.framing ≡ Framing.Nothing }
    {
        self.from = 0;
        self.to = 0;
        self.framing = Framing::Nothing;
    }

    // What was received and not yet read.
    pub(crate) fn window(&self) -> &[u8]
        ensures { result.now ≡ window_of self.now }
    {
        &self.buffer.as_slice()[self.from..self.to]
    }

    // Receives the next bytes, so many at most, in place of those in the window, and answers whether
    // there were any.
    pub(crate) fn refill<L: Link>(&mut self, link: &mut L, most: usize) -> Result<bool, Failed>
        requires { 0 < most }
        ensures state { (L.told link.new).state ≡ (L.told link.old).state }
        ensures framing { self.new.framing ≡ self.old.framing }
        ensures gave { OnOk result (Gave (L.told link.old).left (L.told link.new).left (window_of self.new)) }
        ensures few { OnOk result (length (window_of self.new) ≤ most) }
        ensures some { IfOk result (λ more. more ≡ true → 0 < length (window_of self.new)) }
        ensures none { IfOk result (λ more. more ≡ false → window_of self.new ≡ []) }
        ensures end { IfOk result (λ more. more ≡ false → IsAtEnd (L.told link.new).left) }
        ensures failed { OnErr result ((L.told link.new).left ≡ (L.told link.old).left) }
        ensures received { OnOk result (Received (length (window_of self.new)) (L.told link.old).received
            (L.told link.new).received) }
        ensures unreceived { OnErr result ((L.told link.new).received ≡ (L.told link.old).received) }
        ensures cause { HasCause (L.told link.old).faults (L.told link.new).faults result }
    {
        let count = receive(link, self.buffer.as_mut_slice(), most)?;
        self.from = 0;
        self.to = count;
        Ok(count != 0)
    }

    // Empties the window and receives into it, once at least, until it has `fewest` bytes or the buffer is full.
    // Answers whether more may come: no where the answer ended. What came before that end, or before the link failed,
    // is in the window.
    pub(crate) fn gather<L: Link>(&mut self, link: &mut L, fewest: usize) -> Result<bool, Failed>
        ensures state { (L.told link.new).state ≡ (L.told link.old).state }
        ensures framing { self.new.framing ≡ self.old.framing }
        ensures gave { Gave (L.told link.old).left (L.told link.new).left (window_of self.new) }
        ensures some { IfOk result (λ more. more ≡ true → 0 < length (window_of self.new)) }
        ensures end { IfOk result (λ more. more ≡ false → IsAtEnd (L.told link.new).left) }
        ensures few { OnErr result (0 < length (window_of self.new) → length (window_of self.new) < fewest) }
        ensures before { Gathers fewest (L.told link.old).left (window_of self.new) }
        ensures received { Received (length (window_of self.new)) (L.told link.old).received
            (L.told link.new).received }
        ensures cause { HasCause (L.told link.old).faults (L.told link.new).faults result }
    {
        self.from = 0;
        self.to = 0;
        loop {
            let count = receive_behind(link, self.buffer.as_mut_slice(), self.to)?;
            self.to += count;
            if count == 0 || self.to >= fewest || self.to == self.buffer.len() {
                return Ok(count != 0);
            }
        }
    }

    // So many bytes of the window were read, and a body of this framing follows.
    pub(crate) fn begin_body(&mut self, count: usize, framing: Framing)
        requires { count ≤ length (window_of self.old) }
        ensures window { window_of self.new ≡ drop count (window_of self.old) }
        ensures framing { self.new.framing ≡ framing }
    {
        self.from += count;
        self.framing = framing;
    }
}
