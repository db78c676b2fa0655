// One IISPH pressure step over a packed scene (iisph_solver.rs): what it reports and answers.
#![tactic(auto)]

pub mod endings;

use scene_format::Refusal;
use timestep_manager::Clock;

// The error of an iteration (METHOD 6.4), and whether an average was not a number and was passed over.
#[derive(Clone, Copy)]
pub struct IterationError {
    pub value: f64,
    pub passed_over: bool,
}

// The error where there are no averages: +0, and nothing passed over.
pub const NO_ERROR: IterationError = IterationError {
    value: 0.0,
    passed_over: false,
};

// How the iterations ended (METHOD 7.1), with the last one's error and whether an average was passed over in it.
#[derive(Clone, Copy)]
pub enum Ending {
    // There were none.
    Unswept,
    // The last one met the stopping test.
    Settled(f64, bool),
    // The last one did not.
    RanOut(f64, bool),
}

// What a step that is not refused reports beside the answer list.
#[derive(Clone, Copy)]
pub struct Report {
    pub clock: Clock,
    pub iterations: u32,
    pub ending: Ending,
}
