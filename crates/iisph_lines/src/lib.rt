// The lines of the text that the program writes (FORMAT 4). What is public here is for the crate of the text, which
// shows what each function asks: the lent list has room for what is written, and the answers to write are there.
#![tactic(auto)]

pub mod lines;
