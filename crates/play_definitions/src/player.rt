// The one value that plays.
use crate::lent::Lent;
use book_calls::Share;
use fetch_wire::Wire;
use link_traits::Link;
use script_runs::Running;

/// The one value that plays: what the document is lent, its pass of the shared book, its link with the wire over
/// it, and how far its run has come. Contracts see where it stands (`standing`). It owns none of them, so that who
/// makes one knows what it has left of each.
#[derive(Drop)]
pub struct Player<'a, 'p, 'l, 'w, 'r, S: Share, L: Link> {
    pub lent: &'a Lent<'a, S>,
    pub pass: &'p mut S::Pass,
    pub link: &'l mut L,
    pub wire: &'w mut Wire,
    pub running: &'r mut Running,
}
