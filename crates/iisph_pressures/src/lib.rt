// What an iteration makes of one fluid particle (METHOD 6.1 to 6.3), over the lent index and work list. Its public
// functions are for the crate of the passes, which shows what they ask: an accepted scene with its index, and a work
// list that holds what earlier passes stored.
#![tactic(auto)]

pub mod iteration;
pub mod quotients;
