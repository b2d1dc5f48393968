// Joining column by column: what it is refused with, the live payloads and maps of a book, and one direction of two books. Document 02, request 6. All functions are internal.

#![tactic(auto)]

pub mod answers;
pub mod axis;
pub mod slots;
