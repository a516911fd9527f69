// The referrer policy of a request, its own or its client's (Fetch, section 4.1 "main fetch", step 8).
ghost use Rattle.std.specs.Prelude.{◌≡◌};
ghost use Rattle.fetch_rules.specs.Policies as spec;

use value_requests::{Client, Request, policy_or};

/// Gives the request of a client a referrer policy: its own, or the client's where its own is empty (Fetch,
/// section 4.1, "main fetch", step 8). It takes no memory.
pub fn set_policy(request: &mut Request, client: &Client)
    ensures { request.new ≡ spec.with_policy client.now request.old }
{
    request.policy = policy_or(request.policy, client.policy);
}
