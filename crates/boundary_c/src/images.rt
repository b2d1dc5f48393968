// The image of a store: written, and read on a box or on the skid, for each of which the C interface has a function.

ghost use Rattle.plain.specs.Devices.{box, skid};
ghost use Rattle.shape.specs.Lent.{at_entry, at_exit};
ghost use Rattle.image_write.specs.Calls.{WriteOf};
ghost use Rattle.image_read.specs.Calls.{ReadOf};

use crate::{changed, lent};
use memory::Device;
use plain::{Answer, Changed, Counts};
use shape::StoreMut;

#[unsafe(no_mangle)]
pub extern "C" fn lot_write_image(
    counts: Counts,
    nodes: &[u32],
    lows: &[u32],
    highs: &[u32],
    live_nodes: &[u64],
    live_edges: &[u64],
    outgoing: &[u32],
    incoming: &[u32],
    work: &mut [u32],
    bytes: &mut [u8],
) -> Answer
    ensures { WriteOf
        (at_entry counts nodes.now lows.now highs.now live_nodes.now live_edges.now outgoing.now incoming.now)
        work.old bytes.old result work.new bytes.new }
{
    let store = lent(
        counts, nodes, lows, highs, live_nodes, live_edges, outgoing, incoming,
    );
    Answer::from(image_write::write_image(&store, work, bytes))
}

#[unsafe(no_mangle)]
pub extern "C" fn lot_read_image(
    counts: Counts,
    nodes: &mut [u32],
    lows: &mut [u32],
    highs: &mut [u32],
    live_nodes: &mut [u64],
    live_edges: &mut [u64],
    outgoing: &mut [u32],
    incoming: &mut [u32],
    bytes: &[u8],
) -> Changed
    ensures { ReadOf box
        (at_entry counts nodes.old lows.old highs.old live_nodes.old live_edges.old outgoing.old incoming.old)
        bytes.now result.number result.value
        (at_exit result.counts nodes.new lows.new highs.new live_nodes.new live_edges.new outgoing.new incoming.new) }
{
    let mut store = StoreMut {
        counts,
        nodes,
        lows,
        highs,
        live_nodes,
        live_edges,
        outgoing,
        incoming,
    };
    let came = image_read::read_image(Device::Box, &mut store, bytes);
    changed(came, store.counts)
}

#[unsafe(no_mangle)]
pub extern "C" fn lot_skid_read_image(
    counts: Counts,
    nodes: &mut [u32],
    lows: &mut [u32],
    highs: &mut [u32],
    live_nodes: &mut [u64],
    live_edges: &mut [u64],
    outgoing: &mut [u32],
    incoming: &mut [u32],
    bytes: &[u8],
) -> Changed
    ensures { ReadOf skid
        (at_entry counts nodes.old lows.old highs.old live_nodes.old live_edges.old outgoing.old incoming.old)
        bytes.now result.number result.value
        (at_exit result.counts nodes.new lows.new highs.new live_nodes.new live_edges.new outgoing.new incoming.new) }
{
    let mut store = StoreMut {
        counts,
        nodes,
        lows,
        highs,
        live_nodes,
        live_edges,
        outgoing,
        incoming,
    };
    let came = image_read::read_image(Device::Skid, &mut store, bytes);
    changed(came, store.counts)
}
