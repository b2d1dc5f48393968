// Rules 1 to 5 of the check, which are tests of counts and words: lengths and bounds, live bits, ends and weights, the index, rings. Each function answers exactly its
// test of crate `shape`, specs/Rules.antt; a later rule requires what the rules before it have established. Linear time, also on hostile words.

#![tactic(auto)]

pub mod axes;
pub mod counts;
pub mod rings;
pub mod weights;
