// What a play has come to.
use book_calls::History;
use script_events::Transcripts;

/// What a play has come to: what each document has shown, and the one history of the book.
#[derive(Drop)]
pub struct Played {
    pub transcripts: Transcripts,
    pub history: History,
}
