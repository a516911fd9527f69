// The verdict of an audit: the text is that of a play, or what is wrong with it first.
use script_reading::Place;

/// What an audit of a printed play comes to.
#[derive(Drop)]
pub enum Verdict {
    /// The text is that of a play of the scenario.
    Play,
    /// The scenario is refused at this place.
    Scenario(Place),
    /// The text has no history, at 0; else this is the first line after `history` that is no entry's, counted from 1.
    History(u64),
    /// The first entry, counted from 0, that the book would not give.
    Illegal(u64),
    /// The first entry of no document.
    Stranger(u64),
    /// The first document that makes other calls than its entries.
    Calls(u32),
    /// The first offset at which the text differs from that of the play.
    Text(u64),
}
