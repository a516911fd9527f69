// What a thread works on while it has the turn.
use book_calls::{Book, History};

/// What the one whose turn it is works on: the book, and its history so far.
#[derive(Drop)]
pub struct Desk {
    pub book: Book,
    pub history: History,
}
