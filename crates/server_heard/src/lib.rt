// Both ends of a connection: what each hears of what the other writes.
#![tactic(auto)]

ghost use Rattle.server_heard.specs.Heard.{RepliesAreHeard, RepliesHaveHeads, RequestsAreHeard};

/// A law: a server that reads the head of a request hears its method and its headers. The call does nothing.
pub fn law_requests_heard()
    ensures { RequestsAreHeard }
{}

/// A law: where the bytes to come are those of a reply, its status and headers are read of them, and then its
/// body is to come. The call does nothing.
pub fn law_replies_heard()
    ensures heard { RepliesAreHeard }
    ensures there { RepliesHaveHeads }
{}
