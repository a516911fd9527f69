// The laws of what a fetch asks of the shared book.
ghost use Rattle.fetch_laws.specs.Laws as laws;

/// A law: whatever comes of its acts, a fetch asks and tells the shared book at most 126 times: in each of
/// at most 21 levels whether the host is known and whether the preflight cache covers the request, what is
/// noted of two heads, what is learned of one, and what is taken back. The call does nothing.
pub fn law_asks()
    ensures { laws.AsksFew }
{}

/// A law: before the time 2^48 each op that a fetch asks of the shared book is in range and of the client's
/// key, whatever comes of its acts. The call does nothing.
pub fn law_own_ops()
    ensures { laws.AsksOwn }
{}
