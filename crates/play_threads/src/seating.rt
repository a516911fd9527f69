// A seat in a row.
use play_definitions::Seating;
use script_events::Transcript;

/// A seat, and what its document has shown.
#[derive(Drop)]
pub(crate) struct Row<L, P> {
    pub(crate) seating: Seating<L, P>,
    pub(crate) transcript: Transcript,
}
