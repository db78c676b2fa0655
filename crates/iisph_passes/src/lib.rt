// The passes of a step over all fluid particles (METHOD 5 and 6), each of which stores some slots of every particle in
// the work list. Its public function is for the crates of the preparation, the iterations and the step, which show what
// it asks: an accepted scene with its index, and a list that holds what earlier passes stored.
#![tactic(auto)]

pub mod traverse;
