// The numbers of document 01's table and of document 02, for the program; specs/Numbers.antt has them for the definitions.

pub const DONE: u32 = 0;

// Words are no store.
pub const NO_STORE: u32 = 1;

// A lent slice too short.
pub const TOO_SHORT: u32 = 2;

// Strip not a multiple of five.
pub const RAGGED: u32 = 3;

// Unknown code or unused word not 0.
pub const UNKNOWN_CODE: u32 = 4;

// Node at or above bound.
pub const OUT_OF_RANGE_NODE: u32 = 5;

pub const REMOVED_NODE: u32 = 6;

// Edge at or above bound.
pub const OUT_OF_RANGE_EDGE: u32 = 7;

pub const REMOVED_EDGE: u32 = 8;

// Move onto itself.
pub const ONTO_ITSELF: u32 = 9;

// Bound equals capacity.
pub const FULL: u32 = 10;

// Image unreadable.
pub const UNREADABLE: u32 = 12;

// Capacity above 32,768.
pub const ABOVE_LIMIT: u32 = 13;

// No chain from one lot to another.
pub const UNREACHABLE: u32 = 14;

// More lots or transfers than the skid takes.
pub const ABOVE_SKID: u32 = 15;

// A low above its high.
pub const INVERTED: u32 = 16;
