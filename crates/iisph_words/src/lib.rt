// Words and numbers, each added to a text that is written into a list. Its public functions are for the crates that
// write lines, which show that there is room.
#![tactic(auto)]

pub mod digits;
pub mod text;
pub mod words;
