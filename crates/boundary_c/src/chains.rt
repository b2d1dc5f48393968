// The nearest lot: the search of crate nearest.

ghost use Rattle.shape.specs.Lent.{at_entry};
ghost use Rattle.nearest.specs.Calls.{NearestOf};

use crate::lent;
use plain::{Answer, Counts};

#[unsafe(no_mangle)]
pub extern "C" fn lot_nearest(
    counts: Counts,
    nodes: &[u32],
    lows: &[u32],
    highs: &[u32],
    live_nodes: &[u64],
    live_edges: &[u64],
    outgoing: &[u32],
    incoming: &[u32],
    first: u32,
    second: u32,
    work: &mut [u32],
    chain: &mut [u32],
) -> Answer
    ensures { NearestOf
        (at_entry counts nodes.now lows.now highs.now live_nodes.now live_edges.now outgoing.now incoming.now)
        first second work.old chain.old result work.new chain.new }
{
    let store = lent(
        counts, nodes, lows, highs, live_nodes, live_edges, outgoing, incoming,
    );
    Answer::from(nearest::nearest(&store, first, second, work, chain))
}
