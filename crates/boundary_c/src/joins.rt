// Two books joined into a third memory.

ghost use Rattle.shape.specs.Lent.{at_entry, at_exit};
ghost use Rattle.join.specs.Calls.{no_counts, lent_maps, JoinOf};

use crate::{changed, lent};
use join::MapsMut;
use plain::{Changed, Counts};
use shape::StoreMut;

#[unsafe(no_mangle)]
pub extern "C" fn lot_join(
    first: Counts,
    first_nodes: &[u32],
    first_lows: &[u32],
    first_highs: &[u32],
    first_live_nodes: &[u64],
    first_live_edges: &[u64],
    first_outgoing: &[u32],
    first_incoming: &[u32],
    second: Counts,
    second_nodes: &[u32],
    second_lows: &[u32],
    second_highs: &[u32],
    second_live_nodes: &[u64],
    second_live_edges: &[u64],
    second_outgoing: &[u32],
    second_incoming: &[u32],
    nodes: &mut [u32],
    lows: &mut [u32],
    highs: &mut [u32],
    live_nodes: &mut [u64],
    live_edges: &mut [u64],
    outgoing: &mut [u32],
    incoming: &mut [u32],
    first_node_map: &mut [u32],
    first_edge_map: &mut [u32],
    second_node_map: &mut [u32],
    second_edge_map: &mut [u32],
) -> Changed
    ensures { JoinOf
        (at_entry first first_nodes.now first_lows.now first_highs.now first_live_nodes.now first_live_edges.now first_outgoing.now first_incoming.now)
        (at_entry second second_nodes.now second_lows.now second_highs.now second_live_nodes.now second_live_edges.now second_outgoing.now second_incoming.now)
        (at_entry no_counts nodes.old lows.old highs.old live_nodes.old live_edges.old outgoing.old incoming.old)
        (lent_maps first_node_map.old first_edge_map.old second_node_map.old second_edge_map.old)
        result.number result.value
        (at_exit result.counts nodes.new lows.new highs.new live_nodes.new live_edges.new outgoing.new incoming.new)
        (lent_maps first_node_map.new first_edge_map.new second_node_map.new second_edge_map.new) }
{
    let first = lent(
        first,
        first_nodes,
        first_lows,
        first_highs,
        first_live_nodes,
        first_live_edges,
        first_outgoing,
        first_incoming,
    );
    let second = lent(
        second,
        second_nodes,
        second_lows,
        second_highs,
        second_live_nodes,
        second_live_edges,
        second_outgoing,
        second_incoming,
    );
    let mut memory = StoreMut {
        counts: Counts::default(),
        nodes,
        lows,
        highs,
        live_nodes,
        live_edges,
        outgoing,
        incoming,
    };
    let mut first_maps = MapsMut {
        nodes: first_node_map,
        edges: first_edge_map,
    };
    let mut second_maps = MapsMut {
        nodes: second_node_map,
        edges: second_edge_map,
    };
    let came = join::join(
        &first,
        &second,
        &mut memory,
        &mut first_maps,
        &mut second_maps,
    );
    changed(came, memory.counts)
}
