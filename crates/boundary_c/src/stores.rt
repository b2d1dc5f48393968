// A store: the counts by value and the seven lent slices. Made fresh, on a box or on the skid, and changed by a strip. In the C interface each device has a function of its
// own.

ghost use Rattle.plain.specs.Devices.{box, skid};
ghost use Rattle.memory.specs.Lengths.{device_of};
ghost use Rattle.shape.specs.Lent.{at_entry, at_exit};
ghost use Rattle.shape.specs.Stores.{words};
ghost use Rattle.strip.specs.Fresh.{FreshOf};
ghost use Rattle.strip.specs.Strip.{StripOf};

use crate::{changed, lent};
use memory::Device;
use plain::{Changed, Counts};
use shape::{Store, StoreMut};

// What C is answered of a fresh store in the memory of this one.
fn made(device: Device, memory: &Store) -> Changed
    ensures { FreshOf (device_of device) (record (words memory.now) { counts = result.counts }) result.number result.value }
{
    match strip::fresh(device, memory.lengths()) {
        Ok(counts) => changed(Ok(()), counts),
        Err(refusal) => changed(Err(refusal), Counts::default()),
    }
}

#[unsafe(no_mangle)]
pub extern "C" fn lot_fresh(
    nodes: &[u32],
    lows: &[u32],
    highs: &[u32],
    live_nodes: &[u64],
    live_edges: &[u64],
    outgoing: &[u32],
    incoming: &[u32],
) -> Changed
    ensures { FreshOf box
        (at_entry result.counts nodes.now lows.now highs.now live_nodes.now live_edges.now outgoing.now incoming.now)
        result.number result.value }
{
    let memory = lent(
        Counts::default(),
        nodes,
        lows,
        highs,
        live_nodes,
        live_edges,
        outgoing,
        incoming,
    );
    made(Device::Box, &memory)
}

#[unsafe(no_mangle)]
pub extern "C" fn lot_skid_fresh(
    nodes: &[u32],
    lows: &[u32],
    highs: &[u32],
    live_nodes: &[u64],
    live_edges: &[u64],
    outgoing: &[u32],
    incoming: &[u32],
) -> Changed
    ensures { FreshOf skid
        (at_entry result.counts nodes.now lows.now highs.now live_nodes.now live_edges.now outgoing.now incoming.now)
        result.number result.value }
{
    let memory = lent(
        Counts::default(),
        nodes,
        lows,
        highs,
        live_nodes,
        live_edges,
        outgoing,
        incoming,
    );
    made(Device::Skid, &memory)
}

#[unsafe(no_mangle)]
pub extern "C" fn lot_strip(
    counts: Counts,
    nodes: &mut [u32],
    lows: &mut [u32],
    highs: &mut [u32],
    live_nodes: &mut [u64],
    live_edges: &mut [u64],
    outgoing: &mut [u32],
    incoming: &mut [u32],
    words: &[u32],
    answers: &mut [u32],
) -> Changed
    ensures { StripOf
        (at_entry counts nodes.old lows.old highs.old live_nodes.old live_edges.old outgoing.old incoming.old)
        words.now answers.old result.number result.value
        (at_exit result.counts nodes.new lows.new highs.new live_nodes.new live_edges.new outgoing.new incoming.new)
        answers.new }
{
    let mut store = StoreMut {
        counts,
        nodes,
        lows,
        highs,
        live_nodes,
        live_edges,
        outgoing,
        incoming,
    };
    let came = strip::strip(&mut store, words, answers);
    changed(came, store.counts)
}
