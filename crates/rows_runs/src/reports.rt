// The reports of a scenario's documents as requests.
use play_documents::ByFetches;
use play_fetch::OverLink;
use play_whole::play_scripted;
use report_delivery::report_requests;
use rows_fetches::scenario_in;
use rows_shell::{Failed, Shown};
use script_events::Transcript;
use script_scenarios::Scenario;
use std::alloc::Global;
use std::sync::Wait;
use std::thread::Threads;
use value_requests::Request;

// Shows a request: its method, its URL and its body.
fn show_request(request: &Request, shown: &mut Shown) {
    shown.add(request.method.as_slice());
    for url in request.urls.as_slice() {
        shown.add(b" ");
        shown.add(url.as_str().as_bytes());
    }
    shown.add(b" ");
    if let Some(body) = &request.body {
        shown.add(body.as_slice());
    }
    shown.add(b"\n");
}

// Shows the reports of a document as requests.
fn show_reports(
    alloc: Global,
    scenario: &Scenario,
    transcript: &Transcript,
    shown: &mut Shown,
) -> Result<(), Failed> {
    if transcript.document as usize >= scenario.documents.len() {
        return Err(Failed);
    }
    let reports = report_requests(alloc, scenario, transcript)?;
    for request in reports.as_slice() {
        show_request(request, shown);
    }
    Ok(())
}

// Plays a scenario, and shows the reports of its documents as requests.
pub(crate) fn show_requests<R: Threads + Wait + Sync>(
    rt: &R,
    alloc: Global,
    text: &[u8],
    shown: &mut Shown,
) -> Result<(), Failed> {
    let scenario = scenario_in(alloc, text)?;
    let driver = ByFetches { fetcher: OverLink };
    let played = play_scripted(rt, &driver, alloc, &scenario.value)?;
    shown.add(b"requests\n");
    for transcript in played.transcripts.as_slice() {
        show_reports(alloc, &scenario.value, transcript, shown)?;
    }
    Ok(())
}
