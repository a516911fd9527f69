// A law of reports: on which parts of a run they rest.
ghost use Rattle.std.specs.Prelude.{List};
ghost use Rattle.script_events.specs.declared.events.Event.{Event};
ghost use Rattle.report_delivery.specs.Laws.{RestOnViolations};
ghost use Rattle.script_scenarios.specs.declared.document.Document.{Document};

/// The reports of a document rest on the violations that it was told and on nothing else: two runs with the same
/// violations have the same reports.
pub fn law_first_urls()
    ensures { (document : Document) (one other : List Event) → RestOnViolations document one other }
{}
