// Reads of a slot.

ghost use Rattle.plain.specs.Reads.{node_payload, edge_record, live_edge_record, contains_node, contains_edge};
ghost use Rattle.shape.specs.Shape.{lists};
ghost use Rattle.shape.specs.Lent.{at_entry};
ghost use Rattle.view.specs.Calls.{Answered, Recorded};

use crate::lent;
use plain::{Answer, Counts, Record};

#[unsafe(no_mangle)]
pub extern "C" fn lot_node_payload(
    counts: Counts,
    nodes: &[u32],
    lows: &[u32],
    highs: &[u32],
    live_nodes: &[u64],
    live_edges: &[u64],
    outgoing: &[u32],
    incoming: &[u32],
    node: u32,
) -> Answer
    ensures { Answered
        (at_entry counts nodes.now lows.now highs.now live_nodes.now live_edges.now outgoing.now incoming.now)
        (λ w. node_payload (lists w) node) result }
{
    let store = lent(
        counts, nodes, lows, highs, live_nodes, live_edges, outgoing, incoming,
    );
    Answer::from(view::slots::node_payload(&store, node))
}

#[unsafe(no_mangle)]
pub extern "C" fn lot_edge_record(
    counts: Counts,
    nodes: &[u32],
    lows: &[u32],
    highs: &[u32],
    live_nodes: &[u64],
    live_edges: &[u64],
    outgoing: &[u32],
    incoming: &[u32],
    edge: u32,
) -> Record
    ensures { Recorded
        (at_entry counts nodes.now lows.now highs.now live_nodes.now live_edges.now outgoing.now incoming.now)
        (λ w. edge_record (lists w) edge) result }
{
    let store = lent(
        counts, nodes, lows, highs, live_nodes, live_edges, outgoing, incoming,
    );
    Record::from(view::slots::edge_record(&store, edge))
}

#[unsafe(no_mangle)]
pub extern "C" fn lot_live_edge_record(
    counts: Counts,
    nodes: &[u32],
    lows: &[u32],
    highs: &[u32],
    live_nodes: &[u64],
    live_edges: &[u64],
    outgoing: &[u32],
    incoming: &[u32],
    edge: u32,
) -> Record
    ensures { Recorded
        (at_entry counts nodes.now lows.now highs.now live_nodes.now live_edges.now outgoing.now incoming.now)
        (λ w. live_edge_record (lists w) edge) result }
{
    let store = lent(
        counts, nodes, lows, highs, live_nodes, live_edges, outgoing, incoming,
    );
    Record::from(view::slots::live_edge_record(&store, edge))
}

#[unsafe(no_mangle)]
pub extern "C" fn lot_contains_node(
    counts: Counts,
    nodes: &[u32],
    lows: &[u32],
    highs: &[u32],
    live_nodes: &[u64],
    live_edges: &[u64],
    outgoing: &[u32],
    incoming: &[u32],
    node: u32,
) -> Answer
    ensures { Answered
        (at_entry counts nodes.now lows.now highs.now live_nodes.now live_edges.now outgoing.now incoming.now)
        (λ w. contains_node (lists w) node) result }
{
    let store = lent(
        counts, nodes, lows, highs, live_nodes, live_edges, outgoing, incoming,
    );
    Answer::from(view::slots::contains_node(&store, node))
}

#[unsafe(no_mangle)]
pub extern "C" fn lot_contains_edge(
    counts: Counts,
    nodes: &[u32],
    lows: &[u32],
    highs: &[u32],
    live_nodes: &[u64],
    live_edges: &[u64],
    outgoing: &[u32],
    incoming: &[u32],
    edge: u32,
) -> Answer
    ensures { Answered
        (at_entry counts nodes.now lows.now highs.now live_nodes.now live_edges.now outgoing.now incoming.now)
        (λ w. contains_edge (lists w) edge) result }
{
    let store = lent(
        counts, nodes, lows, highs, live_nodes, live_edges, outgoing, incoming,
    );
    Answer::from(view::slots::contains_edge(&store, edge))
}
