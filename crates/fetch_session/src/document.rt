// The document that fetches: its client, policies and cookies.
ghost use Rattle.value_requests.specs.Requests.{IsClient};

use policy_csp::Compiled;
use value_requests::{Client, Cookies};

/// The document that fetches: its client, its policies and a table of cookies.
#[derive(Drop)]
pub struct Document {
    pub client: Client,
    pub policies: Compiled,
    pub cookies: Cookies,
    pub ghost valid: { IsClient client },
}
