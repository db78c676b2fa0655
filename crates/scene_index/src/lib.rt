// The index of an accepted packed scene, and through it the contacts of a fluid particle and what they name. Its public
// functions are for the crates of the method, which show what they ask: an accepted scene with its layout or its index.
#![tactic(auto)]

pub mod contacts;
pub mod index;
pub mod records;
