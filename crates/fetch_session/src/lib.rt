// A whole fetch that touches nothing: it says what is to be done next, and is told what came of it, bytes in any
// pieces.
#![tactic(auto)]

mod asking;
mod document;
mod ending;
mod feeding;
mod going;
mod laws;
mod reading;
mod session;
mod taking;

pub use asking::Replied;
pub use document::Document;
pub use feeding::Fed;
pub use laws::law_pieces_join;
pub use reading::{Bodies, Reader};
pub use session::{Session, Stand, Waiting, Went};
