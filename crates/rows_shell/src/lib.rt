// Worked rows, as the programs whose stored runs they are read and print them: the shell of such a program, a row
// and its texts, the header lists, URLs, clients and requests that texts write, and answers as they are printed.
#![tactic(auto)]

mod failed;
mod held;
mod lines;
mod lists;
mod requests;
mod row;
mod shown;
mod urls;
mod words;

pub use failed::Failed;
pub use held::Held;
pub use lines::{Lines, is_title, play, print_text};
pub use lists::list_of;
pub use requests::request_of;
pub use row::{Row, number, texts_between, unescaped};
pub use shown::Shown;
pub use urls::{client_at, origin_written, url_written};
pub use words::{destination_named, has_word, named, policy_named, value_of, values_of};
