// The lines of events, told piece by piece.
#![tactic(auto, using(crate::proofs::KeptLemmas::told_pieces, crate::proofs::EscapeLemmas::escaped_pieces))]

ghost use Rattle.std.specs.Prelude.{◌≡◌, ◌++◌, codes, decimal, OnOk};
ghost use Rattle.script_lines.specs.Calls.{call_text};
ghost use Rattle.script_lines.specs.Kept.{Told};
ghost use Rattle.script_lines.specs.Lines as spec;
ghost use Rattle.value_requests.specs.Names.{destination_name};

use crate::calls::tell_call;
use crate::receiver::Receiver;
use book_calls::{Op, Reply};
use script_events::Event;
use value_bytes::Bytes;
use value_headers::PackedHeaders;
use value_requests::{
    BodyEnd, Destination, Hop, NetError, Outcome, Response, TypeFault, Violation,
};

// Tells a line that ends with a number.
fn tell_number_line<R: Receiver>(
    receiver: &mut R,
    label: &[u8],
    number: u32,
) -> Result<(), R::Refusal>
    ensures { OnOk result (Told (R.kept receiver.old) (R.kept receiver.new) (spec.line (label.now ++ decimal number))) }
{
    receiver.text(label)?;
    receiver.number(u64::from(number))?;
    receiver.text(b"\n")
}

// Tells a header as a line.
fn tell_header<R: Receiver>(receiver: &mut R, name: &[u8], value: &[u8]) -> Result<(), R::Refusal>
    ensures { OnOk result (Told (R.kept receiver.old) (R.kept receiver.new)
        (spec.escaped_line (name.now ++ codes ": " ++ value.now))) }
{
    receiver.text(b"  ")?;
    receiver.escaped(name)?;
    receiver.text(b": ")?;
    receiver.escaped(value)?;
    receiver.text(b"\n")
}

// Tells the lines of a header list.
fn tell_headers<R: Receiver>(receiver: &mut R, headers: &PackedHeaders) -> Result<(), R::Refusal>
    ensures { OnOk result (Told (R.kept receiver.old) (R.kept receiver.new) (spec.header_lines headers.now)) }
{
    for index in 0..headers.len() {
        let (name, value) = headers.at(index);
        tell_header(receiver, name, value)?;
    }
    Ok(())
}

// Tells the length of a body and its bytes.
fn tell_body<R: Receiver>(receiver: &mut R, body: &Bytes) -> Result<(), R::Refusal>
    ensures { OnOk result (Told (R.kept receiver.old) (R.kept receiver.new) (spec.body_text body.now)) }
{
    receiver.number(body.len() as u64)?;
    receiver.text(b": ")?;
    receiver.escaped(body.as_slice())
}

// Tells a line that ends with a body.
fn tell_body_line<R: Receiver>(
    receiver: &mut R,
    label: &[u8],
    body: &Bytes,
) -> Result<(), R::Refusal>
    ensures { OnOk result (Told (R.kept receiver.old) (R.kept receiver.new)
        (spec.line (label.now ++ spec.body_text body.now))) }
{
    receiver.text(label)?;
    tell_body(receiver, body)?;
    receiver.text(b"\n")
}

// Tells the line of a request's body, where there is one.
fn tell_request_body<R: Receiver>(receiver: &mut R, body: &Option<Bytes>) -> Result<(), R::Refusal>
    ensures { OnOk result (Told (R.kept receiver.old) (R.kept receiver.new) (spec.request_body_lines body.now)) }
{
    match body {
        None => Ok(()),
        Some(body) => tell_body_line(receiver, b"  body ", body),
    }
}

// Tells the request line.
fn tell_request_line<R: Receiver>(receiver: &mut R, hop: &Hop) -> Result<(), R::Refusal>
    ensures { OnOk result (Told (R.kept receiver.old) (R.kept receiver.new)
        (spec.escaped_line (spec.request_line hop.now))) }
{
    receiver.text(b"  ")?;
    receiver.escaped(hop.method.as_slice())?;
    receiver.text(b" ")?;
    receiver.escaped(hop.url.as_slice())?;
    receiver.text(b" HTTP/1.1\n")
}

// Tells a request that was sent.
fn tell_hop<R: Receiver>(receiver: &mut R, hop: &Hop) -> Result<(), R::Refusal>
    ensures { OnOk result (Told (R.kept receiver.old) (R.kept receiver.new) (spec.hop_lines hop.now)) }
{
    receiver.text(b"send ")?;
    receiver.text(hop.origin.as_slice())?;
    receiver.text(b"\n")?;
    tell_request_line(receiver, hop)?;
    tell_headers(receiver, &hop.headers)?;
    tell_request_body(receiver, &hop.body)
}

// The disposition of a policy.
fn disposition(enforced: bool) -> &'static [u8]
    ensures { result.now ≡ spec.disposition_name enforced }
{
    if enforced { b"enforce" } else { b"report" }
}

// Tells a violation.
fn tell_violation<R: Receiver>(receiver: &mut R, violation: &Violation) -> Result<(), R::Refusal>
    ensures { OnOk result (Told (R.kept receiver.old) (R.kept receiver.new) (spec.violation_line violation.now)) }
{
    receiver.text(b"violation ")?;
    receiver.number(u64::from(violation.policy))?;
    receiver.text(b" ")?;
    receiver.text(disposition(violation.enforced))?;
    receiver.text(b" ")?;
    receiver.text(violation.directive.name().as_bytes())?;
    receiver.text(b" ")?;
    receiver.text(violation.url.as_slice())?;
    receiver.text(b"\n")
}

// Tells the line of a response's body.
fn tell_body_end<R: Receiver>(receiver: &mut R, body: &BodyEnd) -> Result<(), R::Refusal>
    ensures { OnOk result (Told (R.kept receiver.old) (R.kept receiver.new) (spec.body_line body.now)) }
{
    match body {
        BodyEnd::Null => receiver.text(b"  body none\n"),
        BodyEnd::Whole(bytes) => tell_body_line(receiver, b"  body whole ", bytes),
        BodyEnd::Cut(count) => tell_number_line(receiver, b"  body cut ", *count),
        BodyEnd::Fault(count) => tell_number_line(receiver, b"  body fault ", *count),
        BodyEnd::TooBig => receiver.text(b"  body toobig\n"),
    }
}

// Tells the URL of a response.
fn tell_url<R: Receiver>(receiver: &mut R, url: &Option<Bytes>) -> Result<(), R::Refusal>
    ensures { OnOk result (Told (R.kept receiver.old) (R.kept receiver.new) (spec.url_text url.now)) }
{
    match url {
        None => receiver.text(b"()"),
        Some(url) => receiver.text(url.as_slice()),
    }
}

// Tells a response.
fn tell_response<R: Receiver>(receiver: &mut R, response: &Response) -> Result<(), R::Refusal>
    ensures { OnOk result (Told (R.kept receiver.old) (R.kept receiver.new) (spec.response_lines response.now)) }
{
    receiver.text(b"result ")?;
    receiver.text(response.kind.name().as_bytes())?;
    receiver.text(b" ")?;
    receiver.number(u64::from(response.status))?;
    receiver.text(b" ")?;
    tell_url(receiver, &response.url)?;
    receiver.text(b"\n")?;
    tell_headers(receiver, &response.headers)?;
    tell_body_end(receiver, &response.body)
}

// Tells the header that a network error names.
fn tell_named_header<R: Receiver>(receiver: &mut R, error: &NetError) -> Result<(), R::Refusal>
    ensures { OnOk result (Told (R.kept receiver.old) (R.kept receiver.new) (spec.named_header error.now)) }
{
    match error {
        NetError::PreflightHeader(name) => {
            receiver.text(b" ")?;
            receiver.text(name.as_slice())
        }
        _ => Ok(()),
    }
}

// Tells a network error.
fn tell_error<R: Receiver>(receiver: &mut R, error: &NetError) -> Result<(), R::Refusal>
    ensures { OnOk result (Told (R.kept receiver.old) (R.kept receiver.new) (spec.error_text error.now)) }
{
    receiver.number(u64::from(error.number()))?;
    receiver.text(b" ")?;
    receiver.text(error.name().as_bytes())?;
    tell_named_header(receiver, error)
}

// Tells a line that ends with a network error.
fn tell_error_line<R: Receiver>(
    receiver: &mut R,
    label: &[u8],
    error: &NetError,
) -> Result<(), R::Refusal>
    ensures { OnOk result (Told (R.kept receiver.old) (R.kept receiver.new)
        (spec.line (label.now ++ spec.error_text error.now))) }
{
    receiver.text(label)?;
    tell_error(receiver, error)?;
    receiver.text(b"\n")
}

// Tells the index of the header that a fault names.
fn tell_named_index<R: Receiver>(receiver: &mut R, fault: TypeFault) -> Result<(), R::Refusal>
    ensures { OnOk result (Told (R.kept receiver.old) (R.kept receiver.new) (spec.named_index fault)) }
{
    match fault {
        TypeFault::BadHeader(index) => {
            receiver.text(b" ")?;
            receiver.number(u64::from(index))
        }
        _ => Ok(()),
    }
}

// Tells a fault of a request.
fn tell_fault<R: Receiver>(receiver: &mut R, fault: TypeFault) -> Result<(), R::Refusal>
    ensures { OnOk result (Told (R.kept receiver.old) (R.kept receiver.new) (spec.fault_text fault)) }
{
    receiver.number(u64::from(fault.number()))?;
    receiver.text(b" ")?;
    receiver.text(fault.name().as_bytes())?;
    tell_named_index(receiver, fault)
}

// Tells a line that ends with a fault of a request.
fn tell_fault_line<R: Receiver>(
    receiver: &mut R,
    label: &[u8],
    fault: TypeFault,
) -> Result<(), R::Refusal>
    ensures { OnOk result (Told (R.kept receiver.old) (R.kept receiver.new)
        (spec.line (label.now ++ spec.fault_text fault))) }
{
    receiver.text(label)?;
    tell_fault(receiver, fault)?;
    receiver.text(b"\n")
}

// Tells what a fetch came to.
fn tell_outcome<R: Receiver>(receiver: &mut R, outcome: &Outcome) -> Result<(), R::Refusal>
    ensures { OnOk result (Told (R.kept receiver.old) (R.kept receiver.new) (spec.outcome_lines outcome.now)) }
{
    match outcome {
        Outcome::Answer(response) => tell_response(receiver, response),
        Outcome::Loaded => receiver.text(b"result loaded\n"),
        Outcome::Error(error) => tell_error_line(receiver, b"result error ", error),
    }
}

// Tells the start of a load.
fn tell_load<R: Receiver>(
    receiver: &mut R,
    number: u32,
    destination: Destination,
) -> Result<(), R::Refusal>
    ensures { OnOk result (Told (R.kept receiver.old) (R.kept receiver.new)
        (spec.line (codes "load " ++ decimal number ++ codes " " ++ destination_name destination))) }
{
    receiver.text(b"load ")?;
    receiver.number(u64::from(number))?;
    receiver.text(b" ")?;
    receiver.text(destination.name().as_bytes())?;
    receiver.text(b"\n")
}

// Tells an operation on the shared book.
fn tell_call_line<R: Receiver>(receiver: &mut R, op: &Op, reply: Reply) -> Result<(), R::Refusal>
    ensures { OnOk result (Told (R.kept receiver.old) (R.kept receiver.new)
        (spec.line (codes "call " ++ call_text op.now reply))) }
{
    receiver.text(b"call ")?;
    tell_call(receiver, op, reply)?;
    receiver.text(b"\n")
}

/// Tells the lines of an event to a receiver. Where the receiver refuses, what it kept is any.
pub fn tell_event<R: Receiver>(receiver: &mut R, event: &Event) -> Result<(), R::Refusal>
    ensures { OnOk result (Told (R.kept receiver.old) (R.kept receiver.new) (spec.event_text event.now)) }
{
    match event {
        Event::Fetch(number) => tell_number_line(receiver, b"fetch ", *number),
        Event::Load(number, destination) => tell_load(receiver, *number, *destination),
        Event::Call(op, reply) => tell_call_line(receiver, op.get(), *reply),
        Event::Sent(hop) => tell_hop(receiver, hop.get()),
        Event::Told(violation) => tell_violation(receiver, violation.get()),
        Event::Result(outcome) => tell_outcome(receiver, outcome.get()),
        Event::LoadFailed(error) => tell_error_line(receiver, b"result failed ", error),
        Event::TypeError(fault) => tell_fault_line(receiver, b"result type-error ", *fault),
        Event::LoadError(fault) => tell_fault_line(receiver, b"result failed type-error ", *fault),
    }
}
