// The coefficients of a fluid particle (METHOD 5), over the lent index and work list. Its public functions are for the
// crate of the passes, which shows what they ask: an accepted scene with its index, and a work list that holds what
// earlier passes stored.
#![tactic(auto)]

pub mod coefficients;
mod neighbours;
mod terms;
