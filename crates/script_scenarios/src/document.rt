// The documents of a scenario.
use crate::Script;
use policy_csp_text::Policies;
use url::Url;
use value_bytes::Items;
use value_requests::ReferrerPolicy;

/// A document: its URL, the URL of the page at the top, which is its own where it is not embedded, its
/// referrer policy, its content security policies, and its script.
#[derive(Drop)]
pub struct Document {
    pub url: Url,
    pub top: Url,
    pub policy: ReferrerPolicy,
    pub policies: Policies,
    pub script: Script,
}

/// The documents of a scenario, in order.
pub type Documents = Items<Document>;
