// The single fields of a packed scene, each tested present and by its own rule, and a reader that holds a scene and an
// offset.
#![tactic(auto)]

pub mod fields;
pub mod reader;
