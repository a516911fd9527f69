// The body of a report.
ghost use Rattle.std.specs.Prelude.{◌≡◌, IfOk};
ghost use Rattle.serde_json.specs.View.{view};
ghost use Rattle.report_delivery.specs.Private.Bodies.{report_data};
ghost use Rattle.report_delivery.specs.Reports as spec;

use serde_json::{Value, json};
use std::alloc::Global;
use url::Url;
use value_bytes::{Bytes, OutOfMemory};
use value_requests::{Violation, utf8_text, without_fragment};

// "disposition": enforced, or report-only.
fn disposition(enforced: bool) -> &'static str
    ensures { result.now ≡ spec.disposition enforced }
{
    if enforced { "enforce" } else { "report" }
}

// The text of a reported URL, which is UTF-8.
fn url_text(url: &[u8]) -> &str
    ensures { result.now ≡ spec.url_text url.now }
{
    match utf8_text(url) {
        Some(text) => text,
        None => "",
    }
}

// The body as a JSON value. The members are in the order of their names.
fn report_value(alloc: Global, url: &Url, violation: &Violation) -> Result<Value, OutOfMemory>
    ensures { IfOk result (λ value. view value ≡ report_data url.now violation.now) }
{
    let value = json!(in alloc; {"csp-report": {
        "blocked-uri": url_text(violation.url.as_slice()),
        "disposition": disposition(violation.enforced),
        "document-uri": without_fragment(url),
        "effective-directive": violation.directive.name()
    }})?;
    Ok(value)
}

// "obtain the deprecated serialization of violation", for a document of this URL (CSP 3, section 5.3).
pub(crate) fn report_body(
    alloc: Global,
    url: &Url,
    violation: &Violation,
) -> Result<Bytes, OutOfMemory>
    ensures { IfOk result (λ body. body ≡ spec.report_body url.now violation.now) }
{
    let report = report_value(alloc, url, violation)?;
    let text = report.to_string(alloc)?;
    Ok(Bytes::from_vec(text.into_bytes()))
}
