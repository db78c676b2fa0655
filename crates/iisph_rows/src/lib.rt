// The work list of a step, and what its first passes store there: masses, advected velocities and first pressures from
// a particle's own record, and the volumes of the boundary particles. Its public functions are for the crates of the
// method, which show what they ask: an accepted scene with its index, and room in the list.
#![tactic(auto)]

pub mod boundary_volumes;
pub mod over;
pub mod records;
pub mod rows;
pub mod zeros;
