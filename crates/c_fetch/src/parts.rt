// What an act or an outcome has, by parts.
ghost use Rattle.std.specs.Prelude.{◌≡◌, ℕ, List, Option, option_map, slice_get, IfOk};
ghost use Rattle.fetch_session.specs.Sessions.{standing_of};
ghost use Rattle.c_fetch.specs.Parts as spec;

use book_calls::Op;
use book_preflights::{Lesson, Names, Question};
use fetch_acts::Act;
use fetch_session::Session;
use link_http1::write_request;
use std::alloc::Global;
use value_bytes::{Bytes, OutOfMemory};
use value_headers::PackedHeaders;
use value_requests::{BodyEnd, Hop, NetError, Outcome, Response, Violation};

/// A text that an act or an outcome may have. Lists have one at each index from 0 on; for the others the index is not
/// looked at.
#[derive(Clone, Copy, Debug, PartialEq, Eq)]
pub enum Part {
    /// The serialised origin: of the server that is sent to, or of the request that a call of the preflight cache is
    /// for.
    Origin,
    /// The request target that is sent, the URL of a call of the preflight cache, the one that violates a policy, or
    /// the response's.
    Url,
    /// The method that is sent, or that the preflight cache is asked for, if any.
    Method,
    /// The body that is sent, or that came whole.
    Body,
    /// The name of a header that is sent, or of the response.
    HeaderName,
    /// The value of such a header.
    HeaderValue,
    /// The host that the book is asked for or notes.
    Host,
    /// The key of the preflight cache's part.
    Key,
    /// A header name that the preflight cache is asked for or learns.
    Name,
    /// A method that the preflight cache learns.
    Learnt,
    /// The name of the directive that is violated, of the response's type, or of the network error.
    Word,
    /// The name of the header that a preflight did not allow.
    Refused,
}

// The text at an index.
#[tactic(auto, using(std::proofs::lemmas::Option::slice_get_past))]
fn text_at(texts: &Names, at: usize) -> Option<&[u8]>
    ensures { option_map (λ text. text.now) result ≡ slice_get texts.now at }
{
    if at < texts.len() {
        Some(texts.at(at))
    } else {
        None
    }
}

// The text, if there is one.
fn text_in(text: &Option<Bytes>) -> Option<&[u8]>
    ensures { option_map (λ text. text.now) result ≡ text.now }
{
    match text {
        None => None,
        Some(text) => Some(text.as_slice()),
    }
}

// The name, or the value, of a header at an index.
fn header_text(headers: &PackedHeaders, part: Part, at: usize) -> Option<&[u8]>
    ensures { option_map (λ text. text.now) result ≡ spec.header_text headers.now part at }
{
    if at >= headers.len() {
        return None;
    }
    let (name, value) = headers.at(at);
    match part {
        Part::HeaderName => Some(name),
        Part::HeaderValue => Some(value),
        _ => None,
    }
}

// The text of a question to the preflight cache.
fn question_text(question: &Question, part: Part, at: usize) -> Option<&[u8]>
    ensures { option_map (λ text. text.now) result ≡ spec.question_text question.now part at }
{
    match part {
        Part::Key => Some(question.key.as_slice()),
        Part::Origin => Some(question.origin.as_slice()),
        Part::Url => Some(question.url.as_slice()),
        Part::Method => text_in(&question.method),
        Part::Name => text_at(&question.names, at),
        _ => None,
    }
}

// The text of what the preflight cache learns.
fn lesson_text(lesson: &Lesson, part: Part, at: usize) -> Option<&[u8]>
    ensures { option_map (λ text. text.now) result ≡ spec.lesson_text lesson.now part at }
{
    match part {
        Part::Key => Some(lesson.key.as_slice()),
        Part::Origin => Some(lesson.origin.as_slice()),
        Part::Url => Some(lesson.url.as_slice()),
        Part::Name => text_at(&lesson.names, at),
        Part::Learnt => text_at(&lesson.methods, at),
        _ => None,
    }
}

// The text of a call of the book.
fn call_text(op: &Op, part: Part, at: usize) -> Option<&[u8]>
    ensures { option_map (λ text. text.now) result ≡ spec.call_text op.now part at }
{
    match op {
        Op::Match(host, _) | Op::Note(host, _, _) => match part {
            Part::Host => Some(host.as_slice()),
            _ => None,
        },
        Op::Covers(question, _) => question_text(question, part, at),
        Op::Learn(lesson, _) => lesson_text(lesson, part, at),
        Op::Clear(key, origin, url, _) => match part {
            Part::Key => Some(key.as_slice()),
            Part::Origin => Some(origin.as_slice()),
            Part::Url => Some(url.as_slice()),
            _ => None,
        },
    }
}

// The text of a request that is sent.
fn hop_text(hop: &Hop, part: Part, at: usize) -> Option<&[u8]>
    ensures { option_map (λ text. text.now) result ≡ spec.hop_text hop.now part at }
{
    match part {
        Part::Origin => Some(hop.origin.as_slice()),
        Part::Url => Some(hop.url.as_slice()),
        Part::Method => Some(hop.method.as_slice()),
        Part::Body => text_in(&hop.body),
        _ => header_text(&hop.headers, part, at),
    }
}

// The text of a violation.
fn violation_text(violation: &Violation, part: Part) -> Option<&[u8]>
    ensures { option_map (λ text. text.now) result ≡ spec.violation_text violation.now part }
{
    match part {
        Part::Url => Some(violation.url.as_slice()),
        Part::Word => Some(violation.directive.name().as_bytes()),
        _ => None,
    }
}

// The text of an act.
fn text_of_act(act: &Act, part: Part, at: usize) -> Option<&[u8]>
    ensures { option_map (λ text. text.now) result ≡ spec.text_of_act act.now part at }
{
    match act {
        Act::Ask(op) => call_text(op.get(), part, at),
        Act::Send(hop) => hop_text(hop.get(), part, at),
        Act::Tell(violation) => violation_text(violation.get(), part),
        Act::ReadHead | Act::ReadBody => None,
    }
}

// The bytes of a body that came whole.
fn whole_body(body: &BodyEnd) -> Option<&[u8]>
    ensures { option_map (λ text. text.now) result ≡ spec.whole_body body.now }
{
    match body {
        BodyEnd::Whole(bytes) => Some(bytes.as_slice()),
        _ => None,
    }
}

// The text of a response.
fn response_text(response: &Response, part: Part, at: usize) -> Option<&[u8]>
    ensures { option_map (λ text. text.now) result ≡ spec.response_text response.now part at }
{
    match part {
        Part::Word => Some(response.kind.name().as_bytes()),
        Part::Url => text_in(&response.url),
        Part::Body => whole_body(&response.body),
        _ => header_text(&response.headers, part, at),
    }
}

// The header that a preflight did not allow.
fn refused_header(error: &NetError) -> Option<&[u8]>
    ensures { option_map (λ text. text.now) result ≡ spec.refused_header error.now }
{
    match error {
        NetError::PreflightHeader(name) => Some(name.as_slice()),
        _ => None,
    }
}

// The text of a network error.
fn error_text(error: &NetError, part: Part) -> Option<&[u8]>
    ensures { option_map (λ text. text.now) result ≡ spec.error_text error.now part }
{
    match part {
        Part::Word => Some(error.name().as_bytes()),
        Part::Refused => refused_header(error),
        _ => None,
    }
}

// The text of an outcome.
fn text_of_outcome(outcome: &Outcome, part: Part, at: usize) -> Option<&[u8]>
    ensures { option_map (λ text. text.now) result ≡ spec.text_of_outcome outcome.now part at }
{
    match outcome {
        Outcome::Answer(response) => response_text(response, part, at),
        Outcome::Error(error) => error_text(error, part),
        Outcome::Loaded => None,
    }
}

// All bytes of the request that an act sends.
fn request_of_act(alloc: Global, act: &Act) -> Result<Option<Bytes>, OutOfMemory>
    ensures { IfOk result (λ bytes. bytes ≡ spec.request_of_act act.now) }
{
    match act {
        Act::Send(hop) => Ok(Some(write_request(alloc, hop.get())?)),
        _ => Ok(None),
    }
}

/// The text of the act that is to be done next, or of the outcome of a fetch that is over.
pub fn text_of(session: &Session, part: Part, at: usize) -> Option<&[u8]>
    ensures { option_map (λ text. text.now) result ≡ spec.text_of (standing_of session.now) part at }
{
    if let Some(act) = session.act() {
        return text_of_act(act, part, at);
    }
    match session.outcome() {
        None => None,
        Some(outcome) => text_of_outcome(outcome, part, at),
    }
}

/// All bytes of the request that is to be sent (RFC 9112, section 3), if the act sends one.
pub fn request_of(alloc: Global, session: &Session) -> Result<Option<Bytes>, OutOfMemory>
    ensures { IfOk result (λ bytes. bytes ≡ spec.request_of (standing_of session.now)) }
{
    match session.act() {
        None => Ok(None),
        Some(act) => request_of_act(alloc, act),
    }
}
