// A fetch begins, and is told what came of acts that await no bytes.
ghost use Rattle.std.specs.Prelude.{◌≡◌, ◌<◌, ◌^◌, IfOk, Some};
ghost use Rattle.fetch_acts.specs.declared.act.Input.TheVariants.{Replied, Sent, Told};
ghost use Rattle.fetch_definitions.specs.Fetch.{fetch};
ghost use Rattle.fetch_session.specs.Sessions.{Takes, context_at, standing_of};
ghost use Rattle.fetch_session.specs.Standings.{begun};
ghost use Rattle.value_requests.specs.Requests.{IsRequest};

use crate::document::Document;
use crate::going::stand_of;
use crate::reading::Bodies;
use crate::session::{Session, Waiting, Went};
use book_calls::Reply;
use fetch_acts::Input;
use fetch_machine::Fetching;
use link_http1::Framing;
use std::alloc::Global;
use value_bytes::OutOfMemory;
use value_requests::Request;

impl Session {
    /// Begins the fetch of a request for a document at a time in seconds, which is below 2^48, with bodies of so many
    /// bytes at most (Fetch, section 4.1, "main fetch").
    pub fn start(
        alloc: Global,
        document: Document,
        request: Request,
        now: u64,
        limit: u32,
    ) -> Result<Session, OutOfMemory>
        requires request { IsRequest request }
        requires timely { now < 2 ^ 48 }
        ensures { IfOk result (λ session. standing_of session
            ≡ Some (begun (fetch (context_at document now) request)
            (record { framing = Framing.Nothing; limit = limit }))) }
    {
        let step = Fetching::start(
            alloc,
            request,
            &document.client,
            &document.policies,
            &document.cookies,
            now,
        )?;
        let bodies = Bodies {
            framing: Framing::Nothing,
            limit,
        };
        let stand = stand_of(alloc, step, bodies)?;
        Ok(Session { document, stand })
    }

    // Takes an input, if it may follow the act.
    fn take(&mut self, alloc: Global, input: Input) -> Went
        ensures { Takes input (standing_of self.old) result (standing_of self.new) }
    {
        if !self.awaits(&input) {
            return Went::NotAwaited;
        }
        let Some(waiting) = self.lift() else {
            return Went::NotAwaited;
        };
        let Waiting {
            fetching,
            act,
            reader,
            bodies,
        } = waiting;
        drop(act);
        drop(reader);
        self.go_on(alloc, fetching, bodies, input)
    }

    /// The request was handed to the server.
    pub fn sent(&mut self, alloc: Global) -> Went
        ensures { Takes Sent (standing_of self.old) result (standing_of self.new) }
    {
        self.take(alloc, Input::Sent)
    }

    /// The document was told of the violation.
    pub fn told(&mut self, alloc: Global) -> Went
        ensures { Takes Told (standing_of self.old) result (standing_of self.new) }
    {
        self.take(alloc, Input::Told)
    }

    /// A book that the caller keeps replied: yes or no to a question, and done to what it was told.
    pub fn replied(&mut self, alloc: Global, reply: Reply) -> Went
        ensures { Takes (Replied reply) (standing_of self.old) result (standing_of self.new) }
    {
        self.take(alloc, Input::Replied(reply))
    }
}
