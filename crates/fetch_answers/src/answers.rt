// What a redirect comes to, and how a fetch ends.
use url::Url;
use value_requests::{NetError, Outcome, Response};

/// What comes of a head as a redirect (Fetch, "HTTP-redirect fetch").
#[derive(Drop)]
pub enum Redirection {
    /// It is no redirect to be followed, or one that leads nowhere: the answer is the response.
    Stays,
    /// It is a network error.
    Refuses(NetError),
    /// The request goes on at this URL.
    Goes(Url),
}

/// How a fetch ends with a head (Fetch, the end of "main fetch").
#[derive(Drop)]
pub enum Ended {
    /// It came to this, without reading a body.
    Over(Outcome),
    /// The body of this response is to be read.
    Reads(Response),
}
