// A store compacted.

ghost use Rattle.shape.specs.Lent.{at_entry, at_exit};
ghost use Rattle.compact.specs.Calls.{CompactOf};

use crate::changed;
use plain::{Changed, Counts};
use shape::StoreMut;

#[unsafe(no_mangle)]
pub extern "C" fn lot_compact(
    counts: Counts,
    nodes: &mut [u32],
    lows: &mut [u32],
    highs: &mut [u32],
    live_nodes: &mut [u64],
    live_edges: &mut [u64],
    outgoing: &mut [u32],
    incoming: &mut [u32],
    node_map: &mut [u32],
    edge_map: &mut [u32],
    work: &mut [u32],
) -> Changed
    ensures { CompactOf
        (at_entry counts nodes.old lows.old highs.old live_nodes.old live_edges.old outgoing.old incoming.old)
        node_map.old edge_map.old work.old result.number result.value
        (at_exit result.counts nodes.new lows.new highs.new live_nodes.new live_edges.new outgoing.new incoming.new)
        node_map.new edge_map.new work.new }
{
    let mut store = StoreMut {
        counts,
        nodes,
        lows,
        highs,
        live_nodes,
        live_edges,
        outgoing,
        incoming,
    };
    let came = compact::compact(&mut store, node_map, edge_map, work);
    changed(came, store.counts)
}
