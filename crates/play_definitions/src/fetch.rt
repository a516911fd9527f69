// A fetch that was played by itself.
use script_events::Events;
use value_bytes::Boxed;
use value_requests::Outcome;

/// What one fetch has shown, and what it came to.
#[derive(Drop)]
pub struct FetchRun {
    pub events: Events,
    pub outcome: Boxed<Outcome>,
}
