// Scripted servers, and which of their rules answers a request.
ghost use Rattle.std.specs.Prelude.{◌≡◌, ◌<◌, ◌++◌, ◌∷◌, [], length, slice_get, Some, OnOk, OnErr};
ghost use Rattle.script_scenarios.specs.Servers as spec;

use std::alloc::Global;
use std::marker::Model;
use value_bytes::{Bytes, Items, OutOfMemory};

/// What is answered where no rule fits.
const NOT_FOUND: &[u8] = b"HTTP/1.1 404 Scripted\r\n\r\n";

/// What a server answers: to which method and to which request target, each where it says so, and
/// the bytes of the answer.
#[derive(Drop)]
pub struct Rule {
    pub method: Option<Bytes>,
    pub path: Option<Bytes>,
    pub answer: Bytes,
}

/// The rules of a server, in order. The first that fits answers.
pub type Rules = Items<Rule>;

/// A scripted server: its serialised origin and its rules.
#[derive(Drop)]
pub struct Server {
    pub origin: Bytes,
    pub rules: Rules,
}

// Whether a rule takes this text: it names this text, or none.
fn takes(wanted: &Option<Bytes>, text: &[u8]) -> bool
    ensures { result ≡ spec.takes wanted.now text.now }
{
    match wanted {
        None => true,
        Some(wanted) => wanted.as_slice() == text,
    }
}

impl Rule {
    // Whether the rule is for this method and this request target.
    fn fits(&self, method: &[u8], target: &[u8]) -> bool
        ensures { result ≡ spec.fits self.now method.now target.now }
    {
        takes(&self.method, method) && takes(&self.path, target)
    }
}

// The answer of the first rule that fits.
fn answer_of<'a>(rules: &'a [Rule], method: &[u8], target: &[u8]) -> &'a [u8]
    ensures { result.now ≡ spec.answer_of rules.now method.now target.now }
{
    for rule in rules {
        if rule.fits(method, target) {
            return rule.answer.as_slice();
        }
    }
    NOT_FOUND
}

/// The servers of a scenario, in order, seen as the list of them. The first of an origin counts.
#[derive(Drop)]
pub struct Servers {
    items: Items<Server>,
}

impl Model for Servers {
    ghost use Rattle.std.specs.Prelude.{List};
    ghost use Rattle.script_scenarios.specs.declared.servers.Server.{Server};

    ghost Value = { List Server };

    ghost view = { λ servers. servers.items };
}

impl Servers {
    /// No server. It takes no memory.
    pub fn new(alloc: Global) -> Servers
        ensures { result ≡ [] }
    {
        Servers::of(Items::new(alloc))
    }

    /// The servers of a list.
    pub fn of(items: Items<Server>) -> Servers
        ensures { result ≡ items }
    {
        Servers { items }
    }

    /// Adds a server at the end. A refused one leaves the servers as they were.
    pub fn push(&mut self, server: Server) -> Result<(), OutOfMemory>
        ensures ok { OnOk result (self.new ≡ self.old ++ server ∷ []) }
        ensures err { OnErr result (self.new ≡ self.old) }
    {
        self.items.push(server)
    }

    /// How many servers there are.
    pub fn len(&self) -> usize
        ensures { result ≡ length self.now }
    {
        self.items.len()
    }

    /// The server at an index below the length.
    pub fn at(&self, index: usize) -> &Server
        requires { index < length self.now }
        ensures { slice_get self.now index ≡ Some result.now }
    {
        self.items.at(index)
    }

    /// The servers, in order.
    pub fn as_slice(&self) -> &[Server]
        ensures { result.now ≡ self.now }
    {
        self.items.as_slice()
    }

    /// The bytes that answer a request with this method and this request target to the server of an
    /// origin. The first server of the origin counts, and the first of its rules whose method and
    /// path are these byte for byte, or are absent. Without a rule that fits it is
    /// `HTTP/1.1 404 Scripted` and an empty line; without a server it is empty. It takes no memory.
    pub fn answer(&self, origin: &[u8], method: &[u8], target: &[u8]) -> &[u8]
        ensures { result.now ≡ spec.answer self.now origin.now method.now target.now }
    {
        for server in self.as_slice() {
            if server.origin.as_slice() == origin {
                return answer_of(server.rules.as_slice(), method, target);
            }
        }
        &[]
    }
}
