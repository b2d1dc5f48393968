// The check, and reads of a whole store.

ghost use Rattle.std.specs.Prelude.{◌≡◌};
ghost use Rattle.plain.specs.Calls.{check as check_answer};
ghost use Rattle.plain.specs.Reads.{node_bound_answer, edge_bound_answer, node_count, edge_count, is_empty, is_compact, node_slots, edge_slots};
ghost use Rattle.shape.specs.Shape.{shape_of, lists};
ghost use Rattle.shape.specs.Lent.{at_entry};
ghost use Rattle.shape.specs.Rules.{broken};
ghost use Rattle.shape.specs.Steps.{state_of};
ghost use Rattle.view.specs.Calls.{Answered, Replied};

use crate::lent;
use plain::refusals::Refusal;
use plain::{Answer, Counts};
use validate::judging::check_store;

#[tactic(auto, unfolding(plain::specs::Calls::check))]
#[unsafe(no_mangle)]
pub extern "C" fn lot_check(
    counts: Counts,
    nodes: &[u32],
    lows: &[u32],
    highs: &[u32],
    live_nodes: &[u64],
    live_edges: &[u64],
    outgoing: &[u32],
    incoming: &[u32],
) -> Answer
    ensures { result ≡ check_answer (broken (at_entry counts nodes.now lows.now highs.now live_nodes.now live_edges.now outgoing.now incoming.now)) }
{
    let store = lent(
        counts, nodes, lows, highs, live_nodes, live_edges, outgoing, incoming,
    );
    Answer::from(check_store(&store).map_err(Refusal::from))
}

#[unsafe(no_mangle)]
pub extern "C" fn lot_node_bound(
    counts: Counts,
    nodes: &[u32],
    lows: &[u32],
    highs: &[u32],
    live_nodes: &[u64],
    live_edges: &[u64],
    outgoing: &[u32],
    incoming: &[u32],
) -> Answer
    ensures { Answered
        (at_entry counts nodes.now lows.now highs.now live_nodes.now live_edges.now outgoing.now incoming.now)
        (λ w. node_bound_answer (lists w)) result }
{
    let store = lent(
        counts, nodes, lows, highs, live_nodes, live_edges, outgoing, incoming,
    );
    Answer::from(view::whole::node_bound(&store))
}

#[unsafe(no_mangle)]
pub extern "C" fn lot_edge_bound(
    counts: Counts,
    nodes: &[u32],
    lows: &[u32],
    highs: &[u32],
    live_nodes: &[u64],
    live_edges: &[u64],
    outgoing: &[u32],
    incoming: &[u32],
) -> Answer
    ensures { Answered
        (at_entry counts nodes.now lows.now highs.now live_nodes.now live_edges.now outgoing.now incoming.now)
        (λ w. edge_bound_answer (lists w)) result }
{
    let store = lent(
        counts, nodes, lows, highs, live_nodes, live_edges, outgoing, incoming,
    );
    Answer::from(view::whole::edge_bound(&store))
}

#[unsafe(no_mangle)]
pub extern "C" fn lot_node_count(
    counts: Counts,
    nodes: &[u32],
    lows: &[u32],
    highs: &[u32],
    live_nodes: &[u64],
    live_edges: &[u64],
    outgoing: &[u32],
    incoming: &[u32],
) -> Answer
    ensures { Answered
        (at_entry counts nodes.now lows.now highs.now live_nodes.now live_edges.now outgoing.now incoming.now)
        (λ w. node_count (lists w)) result }
{
    let store = lent(
        counts, nodes, lows, highs, live_nodes, live_edges, outgoing, incoming,
    );
    Answer::from(view::whole::node_count(&store))
}

#[unsafe(no_mangle)]
pub extern "C" fn lot_edge_count(
    counts: Counts,
    nodes: &[u32],
    lows: &[u32],
    highs: &[u32],
    live_nodes: &[u64],
    live_edges: &[u64],
    outgoing: &[u32],
    incoming: &[u32],
) -> Answer
    ensures { Answered
        (at_entry counts nodes.now lows.now highs.now live_nodes.now live_edges.now outgoing.now incoming.now)
        (λ w. edge_count (lists w)) result }
{
    let store = lent(
        counts, nodes, lows, highs, live_nodes, live_edges, outgoing, incoming,
    );
    Answer::from(view::whole::edge_count(&store))
}

#[unsafe(no_mangle)]
pub extern "C" fn lot_is_empty(
    counts: Counts,
    nodes: &[u32],
    lows: &[u32],
    highs: &[u32],
    live_nodes: &[u64],
    live_edges: &[u64],
    outgoing: &[u32],
    incoming: &[u32],
) -> Answer
    ensures { Answered
        (at_entry counts nodes.now lows.now highs.now live_nodes.now live_edges.now outgoing.now incoming.now)
        (λ w. is_empty (lists w)) result }
{
    let store = lent(
        counts, nodes, lows, highs, live_nodes, live_edges, outgoing, incoming,
    );
    Answer::from(view::whole::is_empty(&store))
}

#[unsafe(no_mangle)]
pub extern "C" fn lot_is_compact(
    counts: Counts,
    nodes: &[u32],
    lows: &[u32],
    highs: &[u32],
    live_nodes: &[u64],
    live_edges: &[u64],
    outgoing: &[u32],
    incoming: &[u32],
) -> Answer
    ensures { Answered
        (at_entry counts nodes.now lows.now highs.now live_nodes.now live_edges.now outgoing.now incoming.now)
        (λ w. is_compact (state_of (shape_of w))) result }
{
    let store = lent(
        counts, nodes, lows, highs, live_nodes, live_edges, outgoing, incoming,
    );
    Answer::from(view::compactness::is_compact(&store))
}

#[unsafe(no_mangle)]
pub extern "C" fn lot_node_ids(
    counts: Counts,
    nodes: &[u32],
    lows: &[u32],
    highs: &[u32],
    live_nodes: &[u64],
    live_edges: &[u64],
    outgoing: &[u32],
    incoming: &[u32],
    slots: &mut [u32],
) -> Answer
    ensures { Replied
        (at_entry counts nodes.now lows.now highs.now live_nodes.now live_edges.now outgoing.now incoming.now)
        (λ w room. node_slots (lists w) room) slots.old result slots.new }
{
    let store = lent(
        counts, nodes, lows, highs, live_nodes, live_edges, outgoing, incoming,
    );
    Answer::from(view::ids::node_ids(&store, slots))
}

#[unsafe(no_mangle)]
pub extern "C" fn lot_edge_ids(
    counts: Counts,
    nodes: &[u32],
    lows: &[u32],
    highs: &[u32],
    live_nodes: &[u64],
    live_edges: &[u64],
    outgoing: &[u32],
    incoming: &[u32],
    slots: &mut [u32],
) -> Answer
    ensures { Replied
        (at_entry counts nodes.now lows.now highs.now live_nodes.now live_edges.now outgoing.now incoming.now)
        (λ w room. edge_slots (lists w) room) slots.old result slots.new }
{
    let store = lent(
        counts, nodes, lows, highs, live_nodes, live_edges, outgoing, incoming,
    );
    Answer::from(view::ids::edge_ids(&store, slots))
}
