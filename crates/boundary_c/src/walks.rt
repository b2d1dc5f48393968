// Reads of a node's list, and finding. In the C interface each direction has a function of its own: a number for it would have values that mean none.

ghost use Rattle.plain.specs.declared.TraversalDirection.TheVariants.{Outgoing, Incoming};
ghost use Rattle.plain.specs.Reads.{degree as degree_of, total as total_of, walk as walk_of, neighbors as neighbors_of, find as find_of};
ghost use Rattle.shape.specs.Shape.{lists};
ghost use Rattle.shape.specs.Lent.{at_entry};
ghost use Rattle.view.specs.Calls.{Answered, Totalled, Replied};

use crate::lent;
use plain::{Answer, Counts, Total, TraversalDirection};

#[unsafe(no_mangle)]
pub extern "C" fn lot_out_degree(
    counts: Counts,
    nodes: &[u32],
    lows: &[u32],
    highs: &[u32],
    live_nodes: &[u64],
    live_edges: &[u64],
    outgoing: &[u32],
    incoming: &[u32],
    node: u32,
) -> Answer
    ensures { Answered
        (at_entry counts nodes.now lows.now highs.now live_nodes.now live_edges.now outgoing.now incoming.now)
        (λ w. degree_of Outgoing (lists w) node) result }
{
    let store = lent(
        counts, nodes, lows, highs, live_nodes, live_edges, outgoing, incoming,
    );
    Answer::from(view_walks::degree(&store, TraversalDirection::Outgoing, node))
}

#[unsafe(no_mangle)]
pub extern "C" fn lot_in_degree(
    counts: Counts,
    nodes: &[u32],
    lows: &[u32],
    highs: &[u32],
    live_nodes: &[u64],
    live_edges: &[u64],
    outgoing: &[u32],
    incoming: &[u32],
    node: u32,
) -> Answer
    ensures { Answered
        (at_entry counts nodes.now lows.now highs.now live_nodes.now live_edges.now outgoing.now incoming.now)
        (λ w. degree_of Incoming (lists w) node) result }
{
    let store = lent(
        counts, nodes, lows, highs, live_nodes, live_edges, outgoing, incoming,
    );
    Answer::from(view_walks::degree(&store, TraversalDirection::Incoming, node))
}

#[unsafe(no_mangle)]
pub extern "C" fn lot_out_total(
    counts: Counts,
    nodes: &[u32],
    lows: &[u32],
    highs: &[u32],
    live_nodes: &[u64],
    live_edges: &[u64],
    outgoing: &[u32],
    incoming: &[u32],
    node: u32,
) -> Total
    ensures { Totalled
        (at_entry counts nodes.now lows.now highs.now live_nodes.now live_edges.now outgoing.now incoming.now)
        (λ w. total_of Outgoing (lists w) node) result }
{
    let store = lent(
        counts, nodes, lows, highs, live_nodes, live_edges, outgoing, incoming,
    );
    Total::from(view_walks::total(&store, TraversalDirection::Outgoing, node))
}

#[unsafe(no_mangle)]
pub extern "C" fn lot_in_total(
    counts: Counts,
    nodes: &[u32],
    lows: &[u32],
    highs: &[u32],
    live_nodes: &[u64],
    live_edges: &[u64],
    outgoing: &[u32],
    incoming: &[u32],
    node: u32,
) -> Total
    ensures { Totalled
        (at_entry counts nodes.now lows.now highs.now live_nodes.now live_edges.now outgoing.now incoming.now)
        (λ w. total_of Incoming (lists w) node) result }
{
    let store = lent(
        counts, nodes, lows, highs, live_nodes, live_edges, outgoing, incoming,
    );
    Total::from(view_walks::total(&store, TraversalDirection::Incoming, node))
}

#[unsafe(no_mangle)]
pub extern "C" fn lot_outgoing(
    counts: Counts,
    nodes: &[u32],
    lows: &[u32],
    highs: &[u32],
    live_nodes: &[u64],
    live_edges: &[u64],
    outgoing: &[u32],
    incoming: &[u32],
    node: u32,
    slots: &mut [u32],
) -> Answer
    ensures { Replied
        (at_entry counts nodes.now lows.now highs.now live_nodes.now live_edges.now outgoing.now incoming.now)
        (λ w room. walk_of Outgoing (lists w) node room) slots.old result slots.new }
{
    let store = lent(
        counts, nodes, lows, highs, live_nodes, live_edges, outgoing, incoming,
    );
    Answer::from(view_walks::walk(&store, TraversalDirection::Outgoing, node, slots))
}

#[unsafe(no_mangle)]
pub extern "C" fn lot_incoming(
    counts: Counts,
    nodes: &[u32],
    lows: &[u32],
    highs: &[u32],
    live_nodes: &[u64],
    live_edges: &[u64],
    outgoing: &[u32],
    incoming: &[u32],
    node: u32,
    slots: &mut [u32],
) -> Answer
    ensures { Replied
        (at_entry counts nodes.now lows.now highs.now live_nodes.now live_edges.now outgoing.now incoming.now)
        (λ w room. walk_of Incoming (lists w) node room) slots.old result slots.new }
{
    let store = lent(
        counts, nodes, lows, highs, live_nodes, live_edges, outgoing, incoming,
    );
    Answer::from(view_walks::walk(&store, TraversalDirection::Incoming, node, slots))
}

#[unsafe(no_mangle)]
pub extern "C" fn lot_successors(
    counts: Counts,
    nodes: &[u32],
    lows: &[u32],
    highs: &[u32],
    live_nodes: &[u64],
    live_edges: &[u64],
    outgoing: &[u32],
    incoming: &[u32],
    node: u32,
    slots: &mut [u32],
) -> Answer
    ensures { Replied
        (at_entry counts nodes.now lows.now highs.now live_nodes.now live_edges.now outgoing.now incoming.now)
        (λ w room. neighbors_of Outgoing (lists w) node room) slots.old result slots.new }
{
    let store = lent(
        counts, nodes, lows, highs, live_nodes, live_edges, outgoing, incoming,
    );
    Answer::from(view_walks::neighbors(&store, TraversalDirection::Outgoing, node, slots))
}

#[unsafe(no_mangle)]
pub extern "C" fn lot_predecessors(
    counts: Counts,
    nodes: &[u32],
    lows: &[u32],
    highs: &[u32],
    live_nodes: &[u64],
    live_edges: &[u64],
    outgoing: &[u32],
    incoming: &[u32],
    node: u32,
    slots: &mut [u32],
) -> Answer
    ensures { Replied
        (at_entry counts nodes.now lows.now highs.now live_nodes.now live_edges.now outgoing.now incoming.now)
        (λ w room. neighbors_of Incoming (lists w) node room) slots.old result slots.new }
{
    let store = lent(
        counts, nodes, lows, highs, live_nodes, live_edges, outgoing, incoming,
    );
    Answer::from(view_walks::neighbors(&store, TraversalDirection::Incoming, node, slots))
}

#[unsafe(no_mangle)]
pub extern "C" fn lot_find(
    counts: Counts,
    nodes: &[u32],
    lows: &[u32],
    highs: &[u32],
    live_nodes: &[u64],
    live_edges: &[u64],
    outgoing: &[u32],
    incoming: &[u32],
    first: u32,
    second: u32,
) -> Answer
    ensures { Answered
        (at_entry counts nodes.now lows.now highs.now live_nodes.now live_edges.now outgoing.now incoming.now)
        (λ w. find_of (lists w) first second) result }
{
    let store = lent(
        counts, nodes, lows, highs, live_nodes, live_edges, outgoing, incoming,
    );
    Answer::from(view_walks::finding::find(&store, first, second))
}
