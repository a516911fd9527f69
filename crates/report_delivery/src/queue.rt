// The reports of a document, one after another.
ghost use Rattle.std.specs.Prelude.{◌≡◌, ◌<◌, ◌∷◌, [], length, IfOk, IfSome};
ghost use Rattle.report_delivery.specs.Private.Queues.{IsNextEndpoint, IsNextViolation, IsTaken, begun_left};
ghost use Rattle.report_delivery.specs.Private.Queues.{reports_left};
ghost use Rattle.report_delivery.specs.Reports as spec;
ghost use Rattle.value_requests.specs.Requests.{IsRequest};

use crate::body::report_body;
use crate::endpoint::{endpoint_of, report_words};
use policy_csp_text::first_word;
use script_events::Event;
use script_scenarios::Document;
use std::alloc::Global;
use url::Url;
use value_bytes::{Bytes, OutOfMemory};
use value_headers::HeaderList;
use value_origins::tuple_origin;
use value_requests::{
    Credentials, Destination, Mode, RedirectMode, Referrer, ReferrerPolicy, Request, Tainting,
    Urls, Violation,
};

// The headers of a report.
fn report_headers(alloc: Global) -> Result<HeaderList, OutOfMemory>
    ensures { IfOk result (λ headers. headers ≡ spec.report_headers) }
{
    let mut headers = HeaderList::new(alloc);
    headers.append(b"Content-Type", b"application/csp-report")?;
    headers.append(b"Accept", b"*/*")?;
    Ok(headers)
}

// The URL list of one URL.
fn urls_of(alloc: Global, url: Url) -> Result<Urls, OutOfMemory>
    ensures { IfOk result (λ urls. urls ≡ url ∷ []) }
{
    let mut urls = Urls::new(alloc);
    urls.push(url)?;
    Ok(urls)
}

// The report of a violation of a document to an endpoint.
fn report_request(
    alloc: Global,
    document: &Document,
    violation: &Violation,
    endpoint: Url,
) -> Result<Request, OutOfMemory>
    ensures value { IfOk result (λ request. request ≡ spec.report_request document.now violation.now endpoint) }
    ensures valid { IfOk result IsRequest }
{
    Ok(Request {
        method: Bytes::of(alloc, b"POST")?,
        urls: urls_of(alloc, endpoint)?,
        headers: report_headers(alloc)?,
        body: Some(report_body(alloc, &document.url, violation)?),
        origin: tuple_origin(alloc, &document.url)?,
        mode: Mode::NoCors,
        credentials: Credentials::SameOrigin,
        redirect: RedirectMode::Follow,
        referrer: Referrer::Client,
        policy: ReferrerPolicy::Empty,
        integrity: Bytes::new(alloc),
        nonce: Bytes::new(alloc),
        parser: false,
        unsafe_request: false,
        use_preflight: false,
        destination: Destination::Fetch,
        tainting: Tainting::Basic,
        redirects: 0,
    })
}

// The first endpoint among the words of a text, and the text behind it.
fn next_endpoint<'a>(
    alloc: Global,
    base: &Url,
    text: &'a [u8],
) -> Result<Option<(Url, &'a [u8])>, OutOfMemory>
    ensures { IfOk result (λ found. IsNextEndpoint base.now text.now found) }
{
    let mut left = text;
    while let Some((word, rest)) = first_word(left) {
        if let Some(endpoint) = endpoint_of(alloc, base, word)? {
            return Ok(Some((endpoint, rest)));
        }
        left = rest;
    }
    Ok(None)
}

// The first violation among events, and the events after it.
fn next_violation(events: &[Event]) -> Option<(&Violation, &[Event])>
    ensures first { IsNextViolation events.now result }
    ensures fewer { IfSome result (λ found. length found.1.now < length events.now) }
{
    let mut left = events;
    while let Some((event, rest)) = left.split_first() {
        if let Event::Told(violation) = event {
            return Some((violation.get(), rest));
        }
        left = rest;
    }
    None
}

// The reports of a document that are left: those of a violation to the words that are left, and then those of the
// events that are left. None is made before it is asked for, since there may be many.
#[derive(Drop)]
pub(crate) struct Queue<'a> {
    document: &'a Document,
    violation: Option<&'a Violation>,
    // A text with the words that are left.
    words: &'a [u8],
    events: &'a [Event],
}

impl<'a> Queue<'a> {
    // The reports of the violations among events. It takes no memory.
    pub(crate) fn new(document: &'a Document, events: &'a [Event]) -> Queue<'a>
        ensures { reports_left result ≡ spec.report_requests document.now events.now }
    {
        Queue {
            document,
            violation: None,
            words: &[],
            events,
        }
    }

    // The next report of the violation at hand, which is taken, or nothing where none is left of it.
    fn next_begun(&mut self, alloc: Global) -> Result<Option<Request>, OutOfMemory>
        ensures taken { IfOk result (λ report. IsTaken report (begun_left self.old) (begun_left self.new)) }
        ensures valid { IfOk result (λ report. IfSome report IsRequest) }
        ensures document { self.new.document ≡ self.old.document }
        ensures events { self.new.events ≡ self.old.events }
    {
        let Some(violation) = self.violation else {
            return Ok(None);
        };
        let Some((endpoint, words)) = next_endpoint(alloc, &self.document.url, self.words)? else {
            return Ok(None);
        };
        self.words = words;
        let report = report_request(alloc, self.document, violation, endpoint)?;
        Ok(Some(report))
    }

    // The next report, which is taken, or nothing where none is left.
    pub(crate) fn next(&mut self, alloc: Global) -> Result<Option<Request>, OutOfMemory>
        ensures taken { IfOk result (λ report. IsTaken report (reports_left self.old) (reports_left self.new)) }
        ensures valid { IfOk result (λ report. IfSome report IsRequest) }
    {
        loop {
            let report = self.next_begun(alloc)?;
            if report.is_some() {
                return Ok(report);
            }
            let Some((violation, events)) = next_violation(self.events) else {
                return Ok(None);
            };
            self.violation = Some(violation);
            self.words = report_words(&self.document.policies, violation.policy);
            self.events = events;
        }
    }
}
