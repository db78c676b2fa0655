// The iterations over the pressures (METHOD 6): the passes of one, its error, and the loop with its early end. Its
// public functions are for the crate of the step, which shows what they ask: an accepted scene with its index, and a
// work list that is ready for them.
#![tactic(auto)]

pub mod errors;
pub mod pressure_solve;
