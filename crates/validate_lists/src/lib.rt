// Rules 6 and 7 of the check, which follow runs and walks against a mark map: no edge twice, none at the wrong node, every live edge listed. Each function answers
// exactly its test of crate `shape`, specs/Rules.antt, after rules 1 to 5. Linear time, also on hostile words.

#![tactic(auto)]

pub mod runs;
pub mod walks;
