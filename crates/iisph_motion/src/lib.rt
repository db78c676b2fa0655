// The last part of a step for the fluid particles (METHOD 7.2, 7.3): compute_velocity_changes and
// update_velocities_and_positions of the Rust. From the last pressures come velocity changes over the contacts, then
// velocities, positions and the answers. Its public functions are for the crate of the step, which shows what they ask:
// an accepted scene with its index, and a work list that holds what earlier passes stored.
#![tactic(auto)]

pub mod acceleration;
pub mod answers;
mod changes;
