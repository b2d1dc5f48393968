// Moving all live edges of a node to another node on one axis: they are gathered in the node's run, which holds no other once it is prepared, end at the other
// node from then on, and their run is handed over whole. What a call asks and promises of the words is a record of specs/Moves.antt.

ghost use Rattle.runs.specs.Runs.{Cuttable};
ghost use Rattle.relocate.specs.Moves.{RunRelabelled, HandableOver, HandedOver, Movable, Met, Moved};

use runs::overlay::prepare;
use shape::Layout;

// Makes `new` the end of the edges in the run of a node, and answers how many they are. The link is read before the end is stored: the two words' addresses often
// agree in their low bits, and a load behind such a store waits for it.
fn relabel(axis: &mut [u32], layout: Layout, node: usize, new: u32) -> u32
    requires { Cuttable axis.old layout.edge_capacity layout.node_capacity layout.counts node }
    ensures { RunRelabelled axis.old axis.new layout.edge_capacity layout.node_capacity node new result }
{
    let length = axis[4 * layout.edge_capacity + 3 * layout.node_capacity + node];
    let mut next = axis[4 * layout.edge_capacity + layout.node_capacity + node];
    for _ in 0..length {
        let slot = next as usize;
        next = axis[3 * layout.edge_capacity + slot];
        axis[slot] = new;
    }
    length
}

// Appends the whole run of a node to that of another, and leaves the first empty, in constant time.
fn hand_over(axis: &mut [u32], layout: Layout, old: usize, new: usize)
    requires { HandableOver axis.old layout.edge_capacity layout.node_capacity layout.counts old new }
    ensures { HandedOver axis.old axis.new layout.edge_capacity layout.node_capacity layout.counts old new }
{
    let lasts = 4 * layout.edge_capacity;
    let firsts = lasts + layout.node_capacity;
    let tails = lasts + 2 * layout.node_capacity;
    let lengths = lasts + 3 * layout.node_capacity;
    let gone = lengths + old;
    let count = lengths + new;
    let tail = tails + new;
    let moved = axis[gone];
    if moved == 0 {
        return;
    }
    let first = axis[firsts + old];
    let last = axis[tails + old];
    let present = axis[count];
    let before = axis[tail];
    axis[gone] = 0;
    axis[count] = present + moved;
    axis[tail] = last;
    if present == 0 {
        axis[firsts + new] = first;
        return;
    }
    axis[3 * layout.edge_capacity + before as usize] = first;
}

// Prepares the runs of two nodes: that of `old` then holds the edges that move.
fn meet(axis: &mut [u32], layout: Layout, live: &[u64], tombstoned: bool, old: usize, new: usize)
    requires { Movable axis.old layout.edge_capacity layout.node_capacity layout.counts live.now tombstoned old new }
    ensures { Met axis.old axis.new layout.edge_capacity layout.node_capacity layout.counts live.now old new }
{
    prepare(axis, layout, old, live, tombstoned);
    prepare(axis, layout, new, live, tombstoned);
}

// Moves the live edges of `old` behind those of `new`, in their order, and answers how many they are. `old` keeps an empty run.
pub fn move_adjacency(
    axis: &mut [u32],
    layout: Layout,
    live: &[u64],
    tombstoned: bool,
    old: u32,
    new: u32,
) -> u32
    requires { Movable axis.old layout.edge_capacity layout.node_capacity layout.counts live.now tombstoned old new }
    ensures { Moved axis.old axis.new layout.edge_capacity layout.node_capacity layout.counts live.now old new result }
{
    let from = old as usize;
    let to = new as usize;
    meet(axis, layout, live, tombstoned, from, to);
    let moved = relabel(axis, layout, from, new);
    hand_over(axis, layout, from, to);
    moved
}
