// How much memory the program lends, from document 01's numbers: "(512 nodes, 1,024 edges)" and "at most 65,536 bytes". A constant calls no function, so that the live words,
// the words of an axis and the widths stand here as sums and numbers.

use image_check::places::{EDGE_PAYLOAD_WIDTH, NODE_PAYLOAD_WIDTH, NODES_START};
use plain::OPERATION_WORDS;

// The capacities of the store.
pub const NODES: usize = 512;

pub const EDGES: usize = 1024;

// Live words, 64 slots each.
pub const LIVE_NODES: usize = NODES / 64;

pub const LIVE_EDGES: usize = EDGES / 64;

// The words of an axis.
pub const AXIS: usize = 4 * EDGES + 6 * NODES + 1;

// The work of writing an image: two words a live edge.
pub const WORK: usize = 2 * EDGES;

// The bytes of a word, and of an operation.
pub const WORD_BYTES: usize = 4;

pub const OPERATION_BYTES: usize = WORD_BYTES * OPERATION_WORDS;

// The most bytes that an input may have, and its words and answers.
pub const INPUT: usize = 65536;

pub const WORDS: usize = INPUT / WORD_BYTES;

pub const ANSWERS: usize = 2 * (WORDS / OPERATION_WORDS);

// The least widths of so many nodes and edges, and the bytes of any image: `image_room` of specs/Booking.antt.
const NODE_WIDTH: usize = 9;

const EDGE_WIDTH: usize = 10;

const RECORD_WIDTH: usize = 2 * NODE_WIDTH + EDGE_PAYLOAD_WIDTH as usize;

const EDGES_START: usize = NODES_START + NODE_PAYLOAD_WIDTH as usize * NODES;

pub const IMAGE: usize = (EDGES_START + RECORD_WIDTH * EDGES + 2 * EDGE_WIDTH * EDGES) / 8;

// The bytes of any line, and of any text: `text_room` of specs/Printing.antt.
const LINE: usize = 63;

pub const TEXT: usize = LINE * (INPUT / OPERATION_BYTES) + 2 * IMAGE + 1;
