// What a fetch is lent at each step: client, policies, cookies and time.
use policy_csp::Compiled;
use std::marker::Model;
use value_requests::{Client, Cookies};

/// What a fetch is lent at each step: the client that fetches, its policies, the table of cookies, and the time of
/// the fetch in seconds, which is below 2^48.
#[derive(Drop)]
pub(crate) struct Context<'a> {
    pub(crate) client: &'a Client,
    pub(crate) policies: &'a Compiled,
    pub(crate) cookies: &'a Cookies,
    pub(crate) time: u64,
}

impl<'a> Model for Context<'a> {
    ghost use Rattle.std.specs.Prelude.{◌<◌, ◌^◌};
    ghost use Rattle.fetch_definitions.specs.Then as spec;

    ghost Value = { spec.Context };

    ghost view = { λ lent. spec.context_of lent.client.now lent.policies.now lent.cookies.now lent.time };

    ghost invariant = { λ lent. lent.time < 2 ^ 48 };
}
