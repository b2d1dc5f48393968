// The rings: of each node the edges appended since its base part was built or its run took them over. A ring is circular; the node has its last edge, and that
// edge's link leads to the first; NONE in its place is the empty ring, since the words are lent. So an append takes constant time and the ring is read in the
// order of appending. What a call asks and promises of the words is a record of specs/Rings.antt.

ghost use Rattle.adjacency.specs.Rings.{Appendable, Appended, Openable, Opened, NodesOpenable, NodesOpened, EndsReadable, EndsRead, Detachable, Detached};

use crate::index::fill_words;
use plain::NONE;
use shape::Layout;

// The first and the last edge of a ring that is not empty.
#[derive(Clone, Copy)]
pub struct RingEnds {
    pub first: u32,
    pub last: u32,
}

// Makes `node` the end of the new edge `appended` and appends the edge to the node's ring.
pub fn append(axis: &mut [u32], layout: Layout, node: usize, appended: u32)
    requires { Appendable axis.old layout.edge_capacity layout.node_capacity layout.counts.nodes.bound layout.counts.edges.base node appended }
    ensures { Appended axis.old axis.new layout.edge_capacity layout.counts.nodes.bound layout.counts.edges.base node appended }
{
    let slot = appended as usize;
    let at = 4 * layout.edge_capacity + node;
    let to = 2 * layout.edge_capacity + slot;
    let last = axis[at];
    axis[slot] = node as u32;
    axis[at] = appended;
    if last == NONE {
        axis[to] = appended;
        return;
    }
    let from = 2 * layout.edge_capacity + last as usize;
    axis[to] = axis[from];
    axis[from] = appended;
}

// Gives the new node slot `node` the empty ring and no run, whatever stood there.
pub fn open_node(axis: &mut [u32], layout: Layout, node: usize)
    requires { Openable axis.old layout.edge_capacity layout.node_capacity node }
    ensures { Opened axis.old axis.new layout.edge_capacity layout.node_capacity node }
{
    axis[4 * layout.edge_capacity + node] = NONE;
    axis[4 * layout.edge_capacity + 4 * layout.node_capacity + node] = 0;
}

// Gives the first `count` nodes the empty ring and no run, whatever stood there. For a new base.
pub fn open_nodes(axis: &mut [u32], layout: Layout, count: usize)
    requires { NodesOpenable axis.old layout.edge_capacity layout.node_capacity count }
    ensures { NodesOpened axis.old axis.new layout.edge_capacity layout.node_capacity count }
{
    fill_words(axis, 4 * layout.edge_capacity, count, NONE);
    fill_words(
        axis,
        4 * layout.edge_capacity + 4 * layout.node_capacity,
        count,
        0,
    );
}

// The ends of the node's ring, None where it is empty.
pub fn ring_ends(axis: &[u32], layout: Layout, node: usize) -> Option<RingEnds>
    requires { EndsReadable axis.now layout.edge_capacity node }
    ensures { EndsRead axis.now layout.edge_capacity node result }
{
    let last = axis[4 * layout.edge_capacity + node];
    if last == NONE {
        return None;
    }
    Some(RingEnds {
        first: axis[2 * layout.edge_capacity + last as usize],
        last,
    })
}

// Forgets the node's ring, whose edges a run has taken over.
pub fn detach(axis: &mut [u32], layout: Layout, node: usize)
    requires { Detachable axis.old layout.edge_capacity node }
    ensures { Detached axis.old axis.new layout.edge_capacity node }
{
    axis[4 * layout.edge_capacity + node] = NONE;
}
