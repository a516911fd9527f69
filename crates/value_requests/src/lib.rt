// What a fetch speaks of: requests and what they are made of, hops, heads, responses, errors and
// violations; and the rules that every request that is sent shares.
#![tactic(auto)]

mod client;
mod error;
mod fault;
mod hop;
mod host_names;
mod init;
mod lines;
mod method;
mod mode;
mod origin_texts;
mod policy;
mod referrer_policy;
mod request;
mod response;
mod status;
mod stripping;
mod target;
mod text_set;
mod urls;

pub use client::{Client, Cookie, Cookies};
pub use error::NetError;
pub use fault::TypeFault;
pub use hop::{Head, Hop};
pub use host_names::{are_host_name, is_host_name};
pub use init::{CrossOrigin, Init, LoadInit, Pair, Pairs};
pub use lines::{ACCEPT_ENCODING, CONNECTION, USER_AGENT, append_where, slice_of};
pub use method::{is_get_or_head, is_post_or_put, is_safelisted_method, normalized_method};
pub use mode::{Credentials, Mode, RedirectMode, ReferrerPolicy, Tainting};
pub use origin_texts::read_origin;
pub use policy::{Destination, Directive, Violation};
pub use referrer_policy::{policy_of_header, policy_or};
pub use request::{MOST_REDIRECTS, Referrer, Request, Urls};
pub use response::{BodyEnd, Outcome, Response, ResponseKind};
pub use status::{is_null_body_status, is_ok_status, is_redirect_status};
pub use stripping::{strip, without_fragment};
pub use target::{host_value, origin_text, target_of};
pub use text_set::TextSet;
pub use urls::{has_credentials, is_short_url, unless_long, url_against, url_alone, utf8_text};
