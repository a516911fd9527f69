// The last result of a script, its parts, and conditions on it.
ghost use Rattle.std.specs.Prelude.{◌≡◌, ◌++◌, [], OnOk, drop, decimal, unwrap_or, option_map};
ghost use Rattle.script_filling.specs.Results as spec;
ghost use Rattle.script_filling.specs.Results.{lent_result};
ghost use Rattle.value_text.specs.Mime.{is_text};

use script_events::Event;
use script_scenarios::Test;
use std::alloc::Global;
use value_bytes::OutOfMemory;
use value_requests::{BodyEnd, Outcome, Response, is_ok_status};

/// Whether an event says what a fetch or a load came to: a response, a load that succeeded, a network
/// error, or that there was no request. It takes no memory.
pub fn is_result(event: &Event) -> bool
    ensures { result ≡ spec.is_result event.now }
{
    match event {
        Event::Result(_) => true,
        Event::LoadFailed(_) => true,
        Event::TypeError(_) => true,
        Event::LoadError(_) => true,
        _ => false,
    }
}

// The response of a result, where it is one.
fn response_of(event: &Event) -> Option<&Response>
    ensures { option_map (λ response. response.now) result ≡ spec.response_of event.now }
{
    match event {
        Event::Result(outcome) => match outcome.get() {
            Outcome::Answer(response) => Some(response),
            _ => None,
        },
        _ => None,
    }
}

// The response of the last result, where it is one.
fn response_in(last: Option<&Event>) -> Option<&Response>
    ensures { option_map (λ response. response.now) result ≡ spec.response_in (lent_result last.entry) }
{
    match last {
        None => None,
        Some(event) => response_of(event),
    }
}

// The status of the last result, or 0.
fn status_of(last: Option<&Event>) -> u16
    ensures { result ≡ spec.status_of (spec.response_in (lent_result last.entry)) }
{
    match response_in(last) {
        None => 0,
        Some(response) => response.status,
    }
}

// The type of what a fetch came to, or a load that succeeded.
fn outcome_type(outcome: &Outcome) -> &'static str
    ensures { result.now ≡ spec.outcome_type outcome.now }
{
    match outcome {
        Outcome::Answer(response) => response.kind.name(),
        Outcome::Loaded => "loaded",
        Outcome::Error(_) => "error",
    }
}

// The type of a result.
fn result_type(event: &Event) -> &'static str
    ensures { result.now ≡ spec.result_type event.now }
{
    match event {
        Event::Result(outcome) => outcome_type(outcome.get()),
        Event::TypeError(_) => "type-error",
        Event::LoadFailed(_) => "failed",
        Event::LoadError(_) => "failed",
        _ => "",
    }
}

// The type of the last result.
fn type_of(last: Option<&Event>) -> &'static str
    ensures { result.now ≡ spec.type_of (lent_result last.entry) }
{
    match last {
        None => "none",
        Some(event) => result_type(event),
    }
}

// The bytes of a body that came whole.
fn whole_body(body: &BodyEnd) -> Option<&[u8]>
    ensures { option_map (λ bytes. bytes.now) result ≡ spec.whole_body body.now }
{
    match body {
        BodyEnd::Whole(bytes) => Some(bytes.as_slice()),
        _ => None,
    }
}

// The body of the last result, where it is a response whose body came whole.
fn body_in(last: Option<&Event>) -> Option<&[u8]>
    ensures { option_map (λ bytes. bytes.now) result ≡ spec.body_in (spec.response_in (lent_result last.entry)) }
{
    match response_in(last) {
        None => None,
        Some(response) => whole_body(&response.body),
    }
}

// Adds the status in decimal.
fn add_status(filled: &mut Vec<u8>, alloc: Global, status: u16) -> Result<(), OutOfMemory>
    ensures { OnOk result (filled.new.items ≡ filled.old.items ++ decimal status) }
{
    let digits = status.to_string(alloc)?;
    filled.extend_from_slice(digits.as_bytes())?;
    Ok(())
}

// Adds a text where there is one.
fn add_text(filled: &mut Vec<u8>, text: Option<&[u8]>) -> Result<(), OutOfMemory>
    ensures { OnOk result (filled.new.items
        ≡ filled.old.items ++ unwrap_or (option_map (λ bytes. bytes.now) text.entry) []) }
{
    if let Some(text) = text {
        filled.extend_from_slice(text)?;
    }
    Ok(())
}

// Adds the URL of the last result.
fn add_url(filled: &mut Vec<u8>, last: Option<&Event>) -> Result<(), OutOfMemory>
    ensures { OnOk result
        (filled.new.items ≡ filled.old.items ++ spec.url_of (spec.response_in (lent_result last.entry))) }
{
    match response_in(last) {
        None => Ok(()),
        Some(response) => match &response.url {
            None => Ok(()),
            Some(url) => add_text(filled, Some(url.as_slice())),
        },
    }
}

// Adds what "get" gives of the last result's headers for a name.
fn add_header(
    filled: &mut Vec<u8>,
    alloc: Global,
    last: Option<&Event>,
    name: &[u8],
) -> Result<(), OutOfMemory>
    ensures { OnOk result (filled.new.items
        ≡ filled.old.items ++ spec.header_of name.now (spec.response_in (lent_result last.entry))) }
{
    let Some(response) = response_in(last) else {
        return Ok(());
    };
    match response.headers.get(alloc, name)? {
        None => Ok(()),
        Some(value) => add_text(filled, Some(value.as_slice())),
    }
}

// What comes after `header:`.
fn behind_prefix(name: &[u8]) -> &[u8]
    ensures { result.now ≡ drop 7 name.now }
{
    if name.len() < 7 {
        &[]
    } else {
        name.split_at(7).1
    }
}

// Adds the value of a placeholder's name.
pub(crate) fn add_value(
    filled: &mut Vec<u8>,
    alloc: Global,
    last: Option<&Event>,
    name: &[u8],
) -> Result<(), OutOfMemory>
    ensures { OnOk result (filled.new.items ≡ filled.old.items ++ spec.value_of (lent_result last.entry) name.now) }
{
    if name == b"status".as_slice() {
        add_status(filled, alloc, status_of(last))
    } else if name == b"type".as_slice() {
        add_text(filled, Some(type_of(last).as_bytes()))
    } else if name == b"url".as_slice() {
        add_url(filled, last)
    } else if name == b"body".as_slice() {
        add_text(filled, body_in(last))
    } else {
        add_header(filled, alloc, last, behind_prefix(name))
    }
}

// Whether the last result is a network error, or a fault for which there was no request.
fn is_error(last: Option<&Event>) -> bool
    ensures { result ≡ spec.is_error (lent_result last.entry) }
{
    match last {
        Some(Event::Result(outcome)) => matches!(outcome.get(), Outcome::Error(_)),
        Some(Event::LoadFailed(_)) => true,
        Some(Event::TypeError(_)) => true,
        Some(Event::LoadError(_)) => true,
        _ => false,
    }
}

// Whether there is a text, and it is this one.
fn is_text(wanted: &[u8], text: Option<&[u8]>) -> bool
    ensures { result ≡ is_text wanted.now (option_map (λ bytes. bytes.now) text.entry) }
{
    match text {
        None => false,
        Some(text) => text == wanted,
    }
}

/// Whether a condition holds of the last result, which is none before a script's first fetch or load.
/// It takes no memory.
pub fn holds(test: &Test, last: Option<&Event>) -> bool
    ensures { result ≡ spec.holds test.now (lent_result last.entry) }
{
    match test {
        Test::IsOk => is_ok_status(status_of(last)),
        Test::IsError => is_error(last),
        Test::TypeIs(name) => type_of(last).as_bytes() == name.as_slice(),
        Test::StatusIs(status) => status_of(last) == *status,
        Test::BodyIs(bytes) => is_text(bytes.as_slice(), body_in(last)),
    }
}
