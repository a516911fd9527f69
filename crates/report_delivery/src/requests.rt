// The requests by which a document's violations are reported.
ghost use Rattle.std.specs.Prelude.{◌≡◌, ◌<◌, length, slice_get, Some, IfOk};
ghost use Rattle.std.specs.List.{All};
ghost use Rattle.report_delivery.specs.Reports as spec;
ghost use Rattle.script_scenarios.specs.declared.document.Document.{Document as OneDocument};
ghost use Rattle.value_requests.specs.Requests.{IsRequest};

use crate::queue::Queue;
use script_events::{Event, Transcript};
use script_scenarios::{Document, Scenario};
use std::alloc::Global;
use value_bytes::{Items, OutOfMemory};
use value_requests::Request;

/// The reports of a document, in order.
pub type Reports = Items<Request>;

// The reports of the violations among events.
fn reports_of(alloc: Global, document: &Document, events: &[Event]) -> Result<Reports, OutOfMemory>
    ensures value { IfOk result (λ reports. reports ≡ spec.report_requests document.now events.now) }
    ensures valid { IfOk result (All IsRequest) }
{
    let mut reports = Reports::new(alloc);
    let mut queue = Queue::new(document, events);
    while let Some(report) = queue.next(alloc)? {
        reports.push(report)?;
    }
    Ok(reports)
}

/// The reports of the violations that a document was told in its run, which is one of the scenario's (CSP 3, section
/// 5.5, "report a violation", for the directive `report-uri`): for each violation, in order, one to each endpoint of
/// its policy.
///
/// The endpoints of a policy are those words of its `report-uri`, in order, that parse against the document's URL to an
/// http or https URL without credentials, of at most 8,192 bytes. A report is a POST in mode no-cors, with credentials
/// mode same-origin, whose body is the JSON `{"csp-report":{"blocked-uri":U,"disposition":D,"document-uri":V,
/// "effective-directive":E}}` without space: the violation's URL, `enforce` or `report`, the document's URL without
/// fragment, and the name of the effective directive. Each is a valid request.
pub fn report_requests(
    alloc: Global,
    scenario: &Scenario,
    transcript: &Transcript,
) -> Result<Reports, OutOfMemory>
    requires { transcript.now.document < length scenario.now.documents }
    ensures value { (one : OneDocument)
        → slice_get scenario.entry.now.documents transcript.entry.now.document ≡ Some one
        → IfOk result (λ reports. reports ≡ spec.report_requests one transcript.entry.now.events) }
    ensures valid { IfOk result (All IsRequest) }
{
    let document = scenario.documents.at(transcript.document as usize);
    reports_of(alloc, document, transcript.events.as_slice())
}
