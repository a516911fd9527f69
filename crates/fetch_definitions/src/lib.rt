// A whole fetch as the standard has it, as one tree of acts. There is no code here: what only speaks of a fetch stands
// on this crate, beside the machine that does it.
#![tactic(auto)]
