// The delivery of a document's reports.
ghost use Rattle.std.specs.Prelude.{◌≡◌, ◌++◌, ◌<◌, ◌≤◌, ◌^◌, [], ◌∷◌, length, slice_get, option_map, Some, IfOk, OnOk};
ghost use Rattle.link_traits.specs.Sources.{IsAtEnd};
ghost use Rattle.play_definitions.specs.Worlds.{KeepsPass, most_calls, outside};
ghost use Rattle.script_runs.specs.Runs.{after_events, beginning, document_client, fetch_limit};
ghost use Rattle.script_runs.specs.Runs.{fetch_started, finished};
ghost use Rattle.script_runs.specs.Runs.{most_fetches, setting};
ghost use Rattle.script_scenarios.specs.Valid.{IsValid, IsValidDocument};
ghost use Rattle.script_scenarios.specs.declared.document.Document.{Document as OneDocument};
ghost use Rattle.value_requests.specs.Requests.{IsClient};
ghost use Rattle.fetch_wire.specs.Wires.{over_link};
ghost use Rattle.report_delivery.specs.Delivering.{Delivers};
ghost use Rattle.report_delivery.specs.Reporting as spec;
ghost use Rattle.report_delivery.specs.Reports.{report_requests};

use crate::queue::Queue;
use book_calls::Share;
use link_traits::Link;
use play_definitions::FetchRun;
use play_fetch::drive_fetch;
use policy_csp::Compiled;
use policy_csp_text::Policies;
use script_events::{Event, Events, Transcript};
use script_runs::Shown;
use script_scenarios::{Document, Scenario};
use std::alloc::Global;
use std::marker::Model;
use value_bytes::OutOfMemory;
use value_requests::Client;

/// How many reports of a document are played at most.
const MOST_REPORTS: u32 = 1_024;

/// How the delivery of a document's reports ended.
#[derive(Clone, Copy, Debug, PartialEq, Eq)]
pub enum DeliveredEnd {
    /// After the last report.
    Finished,
    /// Before a report, since 1,024 of them had been played.
    Reports,
    /// Before a report, since the lines of those played were longer than 8,388,608 bytes.
    Text,
}

/// The reports of one document, delivered: its number, what the reports have shown, each with its result, and how the
/// delivery ended.
#[derive(Drop)]
pub struct Delivered {
    pub document: u32,
    pub events: Events,
    pub ending: DeliveredEnd,
}

// How far a delivery has come: its time, how many reports were played, and what they have shown. Seen as a run's
// progress.
#[derive(Drop)]
struct Log {
    clock: u64,
    reports: u32,
    shown: Shown,
}

impl Model for Log {
    ghost use Rattle.std.specs.Prelude.{◌≤◌};
    ghost use Rattle.script_runs.specs.Runs.{Progress, most_fetches};

    ghost Value = { Progress };

    ghost view = { λ log. record {
      clock = log.clock;
      commands = 0;
      fetches = log.reports;
      shown = log.shown;
    } };

    ghost invariant = { λ log. log.reports ≤ most_fetches };
}

// Shows events, in order.
fn add_all(shown: &mut Shown, events: Events) -> Result<(), OutOfMemory>
    ensures { OnOk result (shown.new ≡ shown.old ++ events) }
{
    for event in events.into_vec() {
        shown.add(event)?;
    }
    Ok(())
}

impl Log {
    // Nothing was played. It takes no memory.
    fn new(alloc: Global, clock: u64) -> Log
        ensures { result ≡ beginning clock }
    {
        Log {
            clock,
            reports: 0,
            shown: Shown::new(alloc),
        }
    }

    // The limit that is reached before a report.
    fn limit(&self) -> Option<DeliveredEnd>
        ensures limit { option_map spec.ending_of result ≡ fetch_limit self.now }
        ensures few { self.now.fetches ≤ most_fetches }
    {
        if self.reports >= MOST_REPORTS {
            Some(DeliveredEnd::Reports)
        } else if self.shown.is_full() {
            Some(DeliveredEnd::Text)
        } else {
            None
        }
    }

    // Adds a report that was played: what it has shown, and its result. Fewer than 1,024 were played.
    fn add_report(&mut self, run: FetchRun) -> Result<(), OutOfMemory>
        requires { self.old.fetches < most_fetches }
        ensures { OnOk result (self.new ≡ after_events (Event.Result run.outcome ∷ [])
            (after_events run.events (fetch_started self.old))) }
    {
        self.reports += 1;
        add_all(&mut self.shown, run.events)?;
        self.shown.add(Event::Result(run.outcome))
    }

    // The events.
    fn into_events(self) -> Events
        ensures { result ≡ self.shown }
    {
        self.shown.into_events()
    }
}

// Plays the reports of a document, in order, up to a limit.
fn deliver_reports<S: Share, L: Link>(
    alloc: Global,
    scenario: &Scenario,
    document: &Document,
    transcript: &Transcript,
    client: &Client,
    policies: &Compiled,
    share: &S,
    pass: &mut S::Pass,
    link: &mut L,
) -> Result<Delivered, OutOfMemory>
    requires client { IsClient client.now }
    requires timely { transcript.now.clock < 2 ^ 48 }
    requires pass { S.belongs share.now pass.old × (most_calls ≤ (S.account pass.old).left) }
    ensures came { Delivers (over_link L.serves) scenario.entry.now.body_limit (S.account pass.old).document
        (spec.reports_played (setting client.entry.now policies.entry.now scenario.entry.now.cookies)
        (report_requests document.entry.now transcript.entry.now.events) finished
        (beginning transcript.entry.now.clock))
        (outside S.account L.told pass.old link.old) transcript.entry.now.clock result
        (outside S.account L.told pass.new link.new) }
    ensures hung_up { IfOk result (λ _. IsAtEnd (L.told link.old).left → IsAtEnd (L.told link.new).left) }
    ensures number { IfOk result (λ delivered. delivered.document ≡ transcript.entry.now.document) }
    ensures pass { KeepsPass S.account (S.belongs share.now) most_calls pass.old pass.new }
{
    let mut queue = Queue::new(document, transcript.events.as_slice());
    let mut log = Log::new(alloc, transcript.clock);
    while let Some(report) = queue.next(alloc)? {
        let limit = log.limit();
        if let Some(ending) = limit {
            return Ok(Delivered {
                document: transcript.document,
                events: log.into_events(),
                ending,
            });
        }
        let run = drive_fetch(
            alloc,
            report,
            client,
            policies,
            &scenario.cookies,
            transcript.clock,
            scenario.body_limit,
            share,
            pass,
            link,
        )?;
        log.add_report(run)?;
    }
    Ok(Delivered {
        document: transcript.document,
        events: log.into_events(),
        ending: DeliveredEnd::Finished,
    })
}

// The client of a document.
fn client_of(alloc: Global, document: &Document) -> Result<Client, OutOfMemory>
    requires { IsValidDocument document.now }
    ensures value { IfOk result (λ client. client ≡ document_client document.now) }
    ensures valid { IfOk result IsClient }
{
    Client::of(alloc, &document.url, &document.top, document.policy)
}

/// Delivers the reports of the violations that a document was told in its run, which is one of the scenario's, over a
/// link and a share of the book. Each is played as a fetch without policies, at the time at which the run ended, which
/// is below 2^48. They make 129,024 calls of the book at most, which the pass has left.
///
/// Before a report the delivery ends where 1,024 of them were played, or where the lines of what they have shown, each
/// with its result, are longer than 8,388,608 bytes.
///
/// What the reports show is their run over a tape of what the world answers, as `drive` says of a document's script.
/// Where memory was refused some events begin such a run, and the calls that were made are those on the way.
pub fn deliver<S: Share, L: Link>(
    alloc: Global,
    scenario: &Scenario,
    transcript: &Transcript,
    share: &S,
    pass: &mut S::Pass,
    link: &mut L,
) -> Result<Delivered, OutOfMemory>
    requires scenario { IsValid scenario.now }
    requires document { transcript.now.document < length scenario.now.documents }
    requires timely { transcript.now.clock < 2 ^ 48 }
    requires pass { S.belongs share.now pass.old × (most_calls ≤ (S.account pass.old).left) }
    ensures came { (one : OneDocument)
        → slice_get scenario.entry.now.documents transcript.entry.now.document ≡ Some one
        → Delivers (over_link L.serves) scenario.entry.now.body_limit (S.account pass.old).document
        (spec.reporting scenario.entry.now.cookies one transcript.entry.now.clock transcript.entry.now.events)
        (outside S.account L.told pass.old link.old) transcript.entry.now.clock result
        (outside S.account L.told pass.new link.new) }
    ensures hung_up { IfOk result (λ _. IsAtEnd (L.told link.old).left → IsAtEnd (L.told link.new).left) }
    ensures number { IfOk result (λ delivered. delivered.document ≡ transcript.entry.now.document) }
    ensures pass { KeepsPass S.account (S.belongs share.now) most_calls pass.old pass.new }
{
    let document = scenario.documents.at(transcript.document as usize);
    let client = client_of(alloc, document)?;
    let policies = Compiled::of(alloc, &Policies::new(alloc))?;
    deliver_reports(
        alloc, scenario, document, transcript, &client, &policies, share, pass, link,
    )
}
