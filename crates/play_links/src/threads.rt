// How many threads play.

/// On how many threads at most documents are played over their scenario's own servers. These answer at once, so more
/// threads than processors gain nothing, and what a document holds while it runs is held that many times at most.
pub const SCRIPTED_THREADS: usize = 16;
