// Making every edge of a node's walk dead, in one direction (`clear_adjacency` of the Rust). Removing a node is this with the one axis and then with the other. The
// walk is cleared as it is read, with no memory for it: a removed edge stays an entry of its lists, so what is still to be read does not change, and an entry
// that is dead, before or by now, is not counted again.

ghost use Rattle.std.specs.Prelude.{◌*◌, ◌≤◌, true, cond, [], ◌∷◌, length};
ghost use Rattle.adjacency.specs.Walk.{walk_in};
ghost use Rattle.adjacency.specs.Clear.{Retired, LeftClearable, Clearable};

use crate::walk;
use cursor::entries::Entries;
use shape::Layout;

// Makes an edge dead. Answers whether it was live.
fn retire(live_edges: &mut [u64], slots: usize, edge: u32) -> bool
    requires { slots ≤ 64 * length live_edges.old }
    ensures { Retired slots (edge ∷ []) live_edges.old live_edges.new (cond result 1 0) }
{
    liveness::clear(live_edges, slots, edge as usize)
}

// Makes the entries dead that are left. Answers how many were live.
fn clear_left(entries: Entries, live_edges: &mut [u64], slots: usize) -> u32
    requires { LeftClearable live_edges.old slots }
    ensures { Retired slots entries.entry live_edges.old live_edges.new result }
{
    let mut n = 0;
    for edge in entries {
        if retire(live_edges, slots, edge) {
            n += 1;
        }
    }
    n
}

// Makes every edge of the walk of a live node dead. Answers how many were live.
pub fn clear_adjacency(axis: &[u32], layout: Layout, live_edges: &mut [u64], node: usize) -> u32
    requires { Clearable axis.now layout.edge_capacity layout.node_capacity layout.counts live_edges.old node }
    ensures { Retired layout.counts.edges.bound (walk_in axis.now layout.edge_capacity layout.node_capacity layout.counts live_edges.old node true) live_edges.old live_edges.new result }
{
    let entries = walk::entries(axis, layout, node, true);
    clear_left(entries, live_edges, layout.counts.edges.bound as usize)
}
