// The public reads of a store. Port of view.rs, edge.rs and the reads of store.rs. Each takes any counts and any words of any lengths: the check comes first, then
// document 01's order of refusals. A read that refuses writes nothing.

#![tactic(auto)]

pub mod compactness;
pub mod ids;
pub mod slots;
pub mod whole;
