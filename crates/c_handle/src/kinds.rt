// What a handle holds, where it is of one kind: a call reads and changes it in its place.
ghost use Rattle.std.specs.Borrow.{sem};
ghost use Rattle.std.specs.Prelude.{◌≡◌, MatchOption, None, Some};
ghost use Rattle.c_handle.specs.Lending.{LendsBook, LendsClient, LendsFetch, LendsHeaders, LendsPolicies};
ghost use Rattle.c_handle.specs.Lending.{LendsRequest, LendsViolations};
ghost use Rattle.c_handle.specs.Things.{held_book, held_client, held_fetch, held_headers, held_policies};
ghost use Rattle.c_handle.specs.Things.{held_request, held_violations};

use crate::found::Found;
use crate::handle::Handle;
use crate::thing::Thing;
use book_calls::Book;
use c_fetch::{Asked, Settings};
use fetch_session::Session;
use policy_csp::Compiled;
use value_headers::HeaderList;

impl Handle {
    /// The thing that the handle holds, if it is a header list.
    pub fn headers(&mut self) -> Option<&mut HeaderList>
        ensures* writes_back { sem 𝓛 (LendsHeaders self.entry result) }
        ensures value { MatchOption result (held_headers self.old.held ≡ None)
            (λ it. self.old.held ≡ Some (Thing.Headers it.now)) }
    {
        match self.thing()? {
            Thing::Headers(it) => Some(it),
            _ => None,
        }
    }

    /// The thing that the handle holds, if it is a book.
    pub fn book(&mut self) -> Option<&mut Book>
        ensures* writes_back { sem 𝓛 (LendsBook self.entry result) }
        ensures value { MatchOption result (held_book self.old.held ≡ None)
            (λ it. self.old.held ≡ Some (Thing.Book it.now)) }
    {
        match self.thing()? {
            Thing::Book(it) => Some(it),
            _ => None,
        }
    }

    /// The thing that the handle holds, if it is a client.
    pub fn client(&mut self) -> Option<&mut Settings>
        ensures* writes_back { sem 𝓛 (LendsClient self.entry result) }
        ensures value { MatchOption result (held_client self.old.held ≡ None)
            (λ it. self.old.held ≡ Some (Thing.Client it.now)) }
    {
        match self.thing()? {
            Thing::Client(it) => Some(it),
            _ => None,
        }
    }

    /// The thing that the handle holds, if it is a request.
    pub fn request(&mut self) -> Option<&mut Asked>
        ensures* writes_back { sem 𝓛 (LendsRequest self.entry result) }
        ensures value { MatchOption result (held_request self.old.held ≡ None)
            (λ it. self.old.held ≡ Some (Thing.Request it.now)) }
    {
        match self.thing()? {
            Thing::Request(it) => Some(it),
            _ => None,
        }
    }

    /// The thing that the handle holds, if it is a fetch.
    pub fn fetch(&mut self) -> Option<&mut Session>
        ensures* writes_back { sem 𝓛 (LendsFetch self.entry result) }
        ensures value { MatchOption result (held_fetch self.old.held ≡ None)
            (λ it. self.old.held ≡ Some (Thing.Fetch it.now)) }
    {
        match self.thing()? {
            Thing::Fetch(it) => Some(it),
            _ => None,
        }
    }

    /// The thing that the handle holds, if it is policies.
    pub fn policies(&mut self) -> Option<&mut Compiled>
        ensures* writes_back { sem 𝓛 (LendsPolicies self.entry result) }
        ensures value { MatchOption result (held_policies self.old.held ≡ None)
            (λ it. self.old.held ≡ Some (Thing.Policies it.now)) }
    {
        match self.thing()? {
            Thing::Policies(it) => Some(it),
            _ => None,
        }
    }

    /// The thing that the handle holds, if it is violations.
    pub fn violations(&mut self) -> Option<&mut Found>
        ensures* writes_back { sem 𝓛 (LendsViolations self.entry result) }
        ensures value { MatchOption result (held_violations self.old.held ≡ None)
            (λ it. self.old.held ≡ Some (Thing.Violations it.now)) }
    {
        match self.thing()? {
            Thing::Violations(it) => Some(it),
            _ => None,
        }
    }
}
