// Links that wait for each other.
ghost use Rattle.std.specs.Prelude.{◌≡◌, [], None};

use link_traits::{Failed, Link, Links, Routes, Target};
use std::alloc::Global;
use std::sync::atomic::{AtomicBool, Ordering};
use std::thread;
use value_bytes::OutOfMemory;

/// What each link answers to a preflight.
const ALLOWED: &[u8] = b"HTTP/1.1 200 OK\r\nAccess-Control-Allow-Origin: *\r\n\
    Access-Control-Allow-Methods: PUT\r\nAccess-Control-Max-Age: 600\r\nContent-Length: 0\r\n\r\n";

/// What it answers to all else.
const ANSWER: &[u8] =
    b"HTTP/1.1 200 OK\r\nContent-Length: 2\r\nAccess-Control-Allow-Origin: *\r\n\r\nhi";

/// How often a link looks whether the others were asked, before it fails.
const LOOKS: u32 = 1_000_000_000;

/// How many documents there are at most.
const MOST: usize = 5;

/// Which documents have asked.
#[derive(Drop)]
pub struct Asked {
    flags: [AtomicBool; MOST],
}

impl Asked {
    /// None of them.
    pub fn none() -> Asked {
        Asked {
            flags: [
                AtomicBool::new(false),
                AtomicBool::new(false),
                AtomicBool::new(false),
                AtomicBool::new(false),
                AtomicBool::new(false),
            ],
        }
    }

    // Notes that a document has asked.
    fn note(&self, document: usize) {
        if let Some(flag) = self.flags.get(document) {
            flag.store(true, Ordering::SeqCst);
        }
    }

    // Whether the first so many of them have asked.
    fn have(&self, count: usize) -> bool {
        for flag in self.flags.iter().take(count) {
            if !flag.load(Ordering::SeqCst) {
                return false;
            }
        }
        true
    }

    // The same, within so many looks.
    fn come(&self, count: usize) -> bool {
        for _ in 0..LOOKS {
            if self.have(count) {
                return true;
            }
            thread::yield_now();
        }
        false
    }
}

/// How links wait. Each notes what it is asked by this method, whichever it is where it is empty. That of the first
/// document gives its answers once the first so many documents have asked, and those of the others once so many have.
/// They are made only where a route of the scenario has this address, if it is not empty.
#[derive(Clone, Copy)]
pub struct Manner {
    pub method: &'static [u8],
    pub first: usize,
    pub others: usize,
    pub address: &'static [u8],
}

/// Each of so many documents, five at most, waits for all.
pub fn waiting_for(count: usize) -> Manner {
    Manner {
        method: b"",
        first: count,
        others: count,
        address: b"",
    }
}

/// The link of one of some documents. It fails where it waits too long.
#[derive(Drop)]
pub struct WaitingLink<'a> {
    asked: &'a Asked,
    document: usize,
    method: &'static [u8],
    count: usize,
    left: &'static [u8],
    faults: u64,
}

impl<'a> Link for WaitingLink<'a> {
    ghost State = { Unit {0} };

    ghost serves = { record { answer = λ _ _ _. []; next = λ state _ _. state } };

    ghost told = { λ link. record {
      state = None;
      left = None;
      asks = None;
      received = None;
      faults = link.faults;
    } };

    fn ask(&mut self, _target: &Target, request: &[u8]) -> Result<(), Failed> {
        if request.starts_with(self.method) {
            self.asked.note(self.document);
        }
        self.left = if request.starts_with(b"OPTIONS ") {
            ALLOWED
        } else {
            ANSWER
        };
        Ok(())
    }

    fn recv(&mut self, buf: &mut [u8]) -> Result<usize, Failed> {
        if !self.asked.come(self.count) {
            self.faults = self.faults.saturating_add(1);
            return Err(Failed);
        }
        let count = buf.len().min(self.left.len());
        let (front, rest) = self.left.split_at(count);
        buf[..count].copy_from_slice(front);
        self.left = rest;
        Ok(count)
    }

    fn hang_up(&mut self) {
        self.left = &[];
    }
}

/// The links of some documents, five at most.
#[derive(Drop)]
pub struct WaitingLinks<'a> {
    asked: &'a Asked,
    manner: Manner,
    faults: u64,
}

impl<'a> WaitingLinks<'a> {
    /// The links of documents, of which these have asked.
    pub fn new(asked: &'a Asked, manner: Manner) -> WaitingLinks<'a> {
        WaitingLinks {
            asked,
            manner,
            faults: 0,
        }
    }

    /// The link of a document.
    pub fn link(&self, document: u32) -> WaitingLink<'a> {
        let count = if document == 0 {
            self.manner.first
        } else {
            self.manner.others
        };
        WaitingLink {
            asked: self.asked,
            document: document as usize,
            method: self.manner.method,
            count,
            left: &[],
            faults: 0,
        }
    }
}

// Whether a route has an address, or any is right.
fn is_reached(routes: &Routes, address: &[u8]) -> bool {
    for route in routes.as_slice() {
        if route.address.as_slice() == address {
            return true;
        }
    }
    address.is_empty()
}

impl<'a> Links for WaitingLinks<'a> {
    type Link = WaitingLink<'a>;

    ghost opening = { λ _ _ _ _. None };

    ghost lent = { λ _. None };

    ghost faults = { λ links. links.faults };

    fn make(
        &mut self,
        _alloc: Global,
        document: u32,
        routes: &Routes,
    ) -> Result<WaitingLink<'a>, OutOfMemory> {
        if !is_reached(routes, self.manner.address) {
            return Err(OutOfMemory);
        }
        Ok(self.link(document))
    }

    fn take_back(&mut self, link: WaitingLink<'a>) {
        self.faults = self.faults.saturating_add(link.faults);
    }
}
