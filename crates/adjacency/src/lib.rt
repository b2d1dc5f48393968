// Adjacency over a compressed base, replacement runs and rings of what was appended since: one packed slice of words a direction, written once for both
// directions. Port of adjacency.rs. All functions are internal: they require the part of a checked store that they need, by its name in crate `shape`.
// An axis is lent as its words, to be read or to be written, with its layout beside them, by value (`shape::Layout`).

#![tactic(auto)]

pub mod axis;
pub mod clear;
pub mod index;
pub mod reads;
pub mod rings;
pub mod walk;
