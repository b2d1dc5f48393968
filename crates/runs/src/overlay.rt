// The overlay: a node whose edges move gets a run, from the live entries of its base part, and the run takes over the ring. From then on the node is read from
// its run in place of the base part. What a call asks and promises of the words is a record of specs/Overlay.antt.

ghost use Rattle.runs.specs.Overlay.{Ready, Copyable, Copied, Started, Drainable, Drained, TakenOver, Preparable, Prepared};

use crate::{keep_one, sweep};
use adjacency::index::base_bounds;
use adjacency::rings::{detach, ring_ends};
use shape::Layout;

// Appends the live edges of a node's base part to its run, which is empty.
fn copy_base(axis: &mut [u32], layout: Layout, node: usize, live: &[u64])
    requires { Copyable axis.old layout.edge_capacity layout.node_capacity layout.counts live.now node }
    ensures { Copied axis.old axis.new layout.edge_capacity layout.node_capacity layout.counts live.now node }
{
    let base = base_bounds(axis, layout, node);
    for at in base.start..base.end {
        let entry = axis[layout.edge_capacity + at as usize];
        keep_one(axis, layout, node, live, entry);
    }
}

// Gives a node that has no run one, from the live edges of its base part.
pub fn start_run(axis: &mut [u32], layout: Layout, node: usize, live: &[u64])
    requires { Ready axis.old layout.edge_capacity layout.node_capacity layout.counts live.now node }
    ensures { Started axis.old axis.new layout.edge_capacity layout.node_capacity layout.counts live.now node }
{
    let mark = 4 * layout.edge_capacity + 4 * layout.node_capacity + node;
    let count = 4 * layout.edge_capacity + 3 * layout.node_capacity + node;
    if axis[mark] != 0 {
        return;
    }
    axis[mark] = 1;
    axis[count] = 0;
    copy_base(axis, layout, node, live);
}

// Moves the live edges of a node's ring to the end of its run, and forgets the ring. It follows links up to the ring's last and counts nothing, so that no range says how far
// it goes.
pub fn drain(axis: &mut [u32], layout: Layout, node: usize, live: &[u64])
    requires { Drainable axis.old layout.edge_capacity layout.node_capacity layout.counts live.now node }
    ensures { Drained axis.old axis.new layout.edge_capacity layout.node_capacity layout.counts live.now node }
{
    let Some(ends) = ring_ends(axis, layout, node) else {
        return;
    };
    let mut next = ends.first;
    while next != ends.last {
        let entry = next;
        next = axis[2 * layout.edge_capacity + entry as usize];
        keep_one(axis, layout, node, live, entry);
    }
    keep_one(axis, layout, node, live, next);
    detach(axis, layout, node);
}

// Makes a node's run take over its base part, where it had no run, and its ring.
pub fn take_over(axis: &mut [u32], layout: Layout, node: usize, live: &[u64])
    requires { Ready axis.old layout.edge_capacity layout.node_capacity layout.counts live.now node }
    ensures { TakenOver axis.old axis.new layout.edge_capacity layout.node_capacity layout.counts live.now node }
{
    start_run(axis, layout, node, live);
    drain(axis, layout, node, live);
}

// Makes a node's run take over its base part and ring, and sweeps it: what comes before an edit of the run.
pub fn prepare(axis: &mut [u32], layout: Layout, node: usize, live: &[u64], tombstoned: bool)
    requires { Preparable axis.old layout.edge_capacity layout.node_capacity layout.counts live.now tombstoned node }
    ensures { Prepared axis.old axis.new layout.edge_capacity layout.node_capacity layout.counts live.now node }
{
    take_over(axis, layout, node, live);
    sweep(axis, layout, node, live, tombstoned);
}
