// Recorded calls: how they are read from standard input, what they are made on, and how an answer is printed. For the program replay_main and the three crates with its
// calls.

#![tactic(auto)]

pub mod book;
pub mod call;
pub mod input;
pub mod print;

// A line of the input: a call as it is recorded, or five words of another kind.
pub type Line = [u32; 5];
