// A new compressed base of one direction.

ghost use Rattle.compact.specs.Bases.{Rebuildable, Rebuilt, Compactable, AxisCompacted};

use adjacency::index::{count_offsets, place_joined};
use adjacency::rings::open_nodes;
use shape::Layout;
use survivors::slots;

// Puts a new base in place of base, runs and rings: the offsets counted from the ends of `count_edges` edges, the joined lists copied from lent words, every
// ring of `count_nodes` nodes empty, and no run. For compaction; image reading leaves the same base, its lists read from bits.
pub fn rebuild(
    axis: &mut [u32],
    layout: Layout,
    count_nodes: usize,
    count_edges: usize,
    entries: &[u32],
)
    requires { Rebuildable axis.old layout.edge_capacity layout.node_capacity count_nodes count_edges entries.now }
    ensures { Rebuilt axis.old layout.edge_capacity layout.node_capacity count_nodes count_edges entries.now axis.new }
{
    count_offsets(axis, layout, count_nodes, count_edges);
    place_joined(axis, layout, &entries[..count_edges]);
    open_nodes(axis, layout, count_nodes);
}

// Compacts one direction: the ends of the live edges move down and are renumbered, and the new base takes its lists from lent words. `bound` is the number of
// edge slots before, `count_nodes` and `count_edges` the live ones, as `rebuild` takes them.
pub fn compact_axis(
    axis: &mut [u32],
    layout: Layout,
    live_edges: &[u64],
    bound: usize,
    node_map: &[u32],
    count_nodes: usize,
    count_edges: usize,
    entries: &[u32],
)
    requires { Compactable axis.old layout.edge_capacity layout.node_capacity live_edges.now bound node_map.now count_nodes count_edges entries.now }
    ensures { AxisCompacted axis.old layout.edge_capacity layout.node_capacity live_edges.now bound node_map.now count_nodes count_edges
        entries.now axis.new }
{
    slots::keep_live(axis, live_edges, bound, count_edges);
    slots::translate(&mut axis[..count_edges], node_map);
    rebuild(axis, layout, count_nodes, count_edges, entries);
}
