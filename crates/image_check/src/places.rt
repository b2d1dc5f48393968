// Where the parts of an image stand, in bits, from its two counts: "node count n and edge count m (16 bits each); n payloads (32); per edge source, target
// (w bits each), payload (32); the out-lists of nodes 0 up to n−1 joined, then the in-lists (v bits an entry)"; and document 02, No. 8: "the image's edge record
// holds low then high in 64 bits". Each function takes the counts that it reads, and asks for no other bound than it needs: a struct of both counts within the limit
// would ask more of most of them.

ghost use Rattle.std.specs.Prelude.{◌*◌, ◌≤◌, ◌≡◌};
ghost use Rattle.plain.specs.Numbers.{LIMIT};
ghost use Rattle.plain.specs.Bits.{bytes_for, least_width};
ghost use Rattle.plain.specs.Image.{record_width, edges_start, outs_start, ins_start, image_size};

// The bits of a count.
pub const COUNT_WIDTH: u32 = 16;

// The bits of a node's payload.
pub const NODE_PAYLOAD_WIDTH: u32 = 32;

// The bits of a weight.
pub const WEIGHT_WIDTH: u32 = 32;

// The bits of an edge's payload: its low, then its high.
pub const EDGE_PAYLOAD_WIDTH: u32 = 2 * WEIGHT_WIDTH;

// Where the edge count stands, after the node count.
pub const EDGE_COUNT_START: usize = COUNT_WIDTH as usize;

// Where the nodes' payloads begin, after both counts.
pub const NODES_START: usize = 2 * EDGE_COUNT_START;

// The bits of one edge's record.
pub fn record_width(nodes: u32) -> usize
    requires { nodes ≤ LIMIT }
    ensures { result ≡ record_width (least_width nodes) }
{
    let width = bits::least_width(nodes) as usize;
    width + (width + EDGE_PAYLOAD_WIDTH as usize)
}

// Where the edges' records begin.
pub fn edges_start(nodes: u32) -> usize
    ensures { result ≡ edges_start nodes }
{
    NODES_START + NODE_PAYLOAD_WIDTH as usize * nodes as usize
}

// Where the joined out-lists begin.
#[tactic(auto, using(crate::specs::Laws::Sizes::records_small))]
pub fn outs_start(nodes: u32, edges: u32) -> usize
    requires { nodes ≤ LIMIT }
    ensures { result ≡ outs_start nodes edges }
{
    edges_start(nodes) + record_width(nodes) * edges as usize
}

// The bits of the joined lists of one direction.
#[tactic(auto, using(crate::specs::Laws::Sizes::entries_small))]
pub fn lists_size(edges: u32) -> usize
    requires { edges ≤ LIMIT }
    ensures { result ≡ least_width edges * edges }
{
    bits::least_width(edges) as usize * edges as usize
}

// Where the joined in-lists begin.
#[tactic(auto, using(crate::specs::Laws::Sizes::records_small, crate::specs::Laws::Sizes::entries_small))]
pub fn ins_start(nodes: u32, edges: u32) -> usize
    requires { (nodes ≤ LIMIT) × (edges ≤ LIMIT) }
    ensures { result ≡ ins_start nodes edges }
{
    outs_start(nodes, edges) + lists_size(edges)
}

// How many bytes the image has.
#[tactic(auto, using(crate::specs::Laws::Sizes::records_small, crate::specs::Laws::Sizes::entries_small))]
pub fn image_bytes(nodes: u32, edges: u32) -> usize
    requires { (nodes ≤ LIMIT) × (edges ≤ LIMIT) }
    ensures { result ≡ bytes_for (image_size nodes edges) }
{
    (ins_start(nodes, edges) + lists_size(edges)).div_ceil(8)
}
