// The places where a fetch waits for an input, and what it holds there.
ghost use Rattle.std.specs.Prelude.{◌≡◌, ◌≤◌, ◌<◌, ◌^◌, false, IsTrue};
ghost use Rattle.value_requests.specs.Requests.{IsRequest};
ghost use Rattle.fetch_machine.specs.Ready.{is_ready_at, owes_early};

use fetch_acts::Act;
use fetch_answers::Ended;
use policy_csp::Violations;
use policy_preflight::Checked;
use std::snapshot::Snapshot;
use value_bytes::Boxed;
use value_requests::{Head, NetError, Outcome, Request, Response};

/// The request as it is now, how many outer levels owe a clear, and whether this one does.
#[derive(Drop)]
pub struct Level {
    pub(crate) request: Box<Request>,
    pub(crate) owed: u32,
    pub(crate) owes: bool,
    pub ghost valid: { IsRequest request.value },
    pub ghost few: { owed ≤ request.value.redirects },
}

/// What a fetch waits for.
#[derive(Drop)]
pub enum Place {
    /// Violations of report-only policies were told, so many of them.
    Reporting(Violations, usize),
    /// Violations of enforced policies were told, so many of them.
    Blocking(Violations, usize),
    /// The book was asked for a known host.
    Matching,
    /// The preflight cache was asked.
    Covering,
    /// The preflight was sent.
    PreflightSending,
    /// The head of its answer is read.
    PreflightReading,
    /// A known host was noted by that head, on which this is the verdict.
    PreflightNoting(Checked),
    /// What the preflight allows was learned.
    Learning,
    /// The request was sent.
    Sending,
    /// The head of its answer is read.
    HeadReading,
    /// A known host was noted by that head.
    Noting(Head),
    /// Violations by the response were told, so many of them, and then the fetch ends so.
    Ending(Violations, usize, Boxed<Ended>),
    /// The body of the response is read.
    BodyReading(Boxed<Response>),
    /// After an error the preflight cache was told to forget what it has of the request's origin and URL.
    Clearing(NetError),
}

/// A fetch that waits for an input: its time, the level it is at, the place there, and the act that it asked for.
#[derive(Drop)]
pub struct Fetching {
    pub(crate) now: u64,
    pub(crate) level: Level,
    pub(crate) place: Place,
    pub(crate) last: Snapshot<Act>,
    pub ghost timely: { now < 2 ^ 48 },
    pub ghost ready: { IsTrue (is_ready_at place level.request.value) },
    pub ghost fresh: { owes_early place level.owes ≡ false },
}

/// What a fetch does: it asks for an act and waits, or is over.
#[derive(Drop)]
pub enum Step {
    Going(Fetching, Act),
    Over(Boxed<Outcome>),
}
