// The bytes of an image: where its parts stand, and the first of document 01's six rules that they break. Bit-packed, most significant bit first.

#![tactic(auto)]

pub mod check;
mod columns;
pub mod places;
