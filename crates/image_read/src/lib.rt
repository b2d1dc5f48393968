// Reading an image into a store's memory: the bytes are checked, and what they hold is put in place of all that was there, all of it in the base. The result is
// what compaction leaves.

#![tactic(auto)]

mod whole;

ghost use Rattle.std.specs.Prelude.{◌≡◌, length};
ghost use Rattle.plain.specs.Answers.{done_of};
ghost use Rattle.plain.specs.Bits.{fields_at};
ghost use Rattle.plain.specs.Calls.{read_image};
ghost use Rattle.memory.specs.Lengths.{measured, device_of};
ghost use Rattle.shape.specs.Index.{Rewritten};
ghost use Rattle.shape.specs.Shape.{lengths_of};
ghost use Rattle.shape.specs.Stores.{SameSlices, words_mut};
ghost use Rattle.compact.specs.Bases.{Rebuilt};
ghost use Rattle.image_check.specs.Spread.{spread, SpreadFits};
ghost use Rattle.image_read.specs.Directions.{BaseReadable, AxisReadable, AxisRead};
ghost use Rattle.image_read.specs.Calls.{ReadOf};
ghost use Rattle.image_read.specs.Reading.{Accepted, WeightsReadable, WeightsRead, PayloadsReadable, PayloadsRead, AxesReadable, AxesRead, ImagePlaced};

use crate::whole::Image;
use adjacency::index::count_offsets;
use adjacency::rings::open_nodes;
use bits::{least_width, read_field};
use image_check::check::first_broken;
use image_check::places;
use liveness::reset_all_live;
use memory::{Device, Lengths, check_reading};
use plain::refusals::Refusal;
use plain::{Counts, Slots};
use shape::{Layout, StoreMut};

// Reads fields of `width` bits into words, the first at bit `position` and each `stride` bits further.
fn read_fields(bytes: &[u8], position: usize, stride: usize, width: u32, words: &mut [u32])
    requires { SpreadFits bytes.now position stride width words.old 0 (length words.old) }
    ensures { Rewritten words.old words.new 0 (length words.old) (spread bytes.now position stride width) }
{
    let mut from = position;
    for word in words.iter_mut() {
        *word = read_field(bytes, from, width);
        from += stride;
    }
}

// Builds the base of one direction once the ends are in place: the offsets counted from them, the joined lists read, every ring empty, and no run. Counts and width are
// worked out by its caller, once.
fn read_base(
    axis: &mut [u32],
    layout: Layout,
    count_nodes: usize,
    count_edges: usize,
    bytes: &[u8],
    position: usize,
    width: u32,
)
    requires { BaseReadable axis.old layout.edge_capacity layout.node_capacity count_nodes count_edges bytes.now position width }
    ensures { Rebuilt axis.old layout.edge_capacity layout.node_capacity count_nodes count_edges (fields_at bytes.now position width count_edges) axis.new }
{
    count_offsets(axis, layout, count_nodes, count_edges);
    let lists = &mut axis[layout.edge_capacity..layout.edge_capacity + count_edges];
    read_fields(bytes, position, width as usize, width, lists);
    open_nodes(axis, layout, count_nodes);
}

// Reads one direction: the ends of the edges from bit `ends` on, a record apart, and the joined lists from bit `lists` on.
fn read_axis(axis: &mut [u32], layout: Layout, image: &Image, ends: usize, lists: usize)
    requires { AxisReadable axis.old layout.edge_capacity layout.node_capacity image.now.nodes image.now.edges image.now.bytes.now ends lists }
    ensures { AxisRead axis.old layout.edge_capacity layout.node_capacity image.now.nodes image.now.edges image.now.bytes.now ends lists axis.new }
{
    let n = image.nodes as usize;
    let m = image.edges as usize;
    let node_width = least_width(image.nodes);
    let edge_width = least_width(image.edges);
    let stride = places::record_width(image.nodes);
    read_fields(image.bytes, ends, stride, node_width, &mut axis[..m]);
    read_base(axis, layout, n, m, image.bytes, lists, edge_width);
}

// Reads the weights of the edges out of their records: the lows, and the highs, each behind its low. Two slices, and so two calls.
fn read_weights(lows: &mut [u32], highs: &mut [u32], image: &Image)
    requires { WeightsReadable lows.old highs.old image.now.bytes.now image.now.nodes image.now.edges }
    ensures { WeightsRead lows.old highs.old image.now.bytes.now image.now.nodes image.now.edges lows.new highs.new }
{
    let m = image.edges as usize;
    let width = places::WEIGHT_WIDTH;
    let end = least_width(image.nodes) as usize;
    let stride = places::record_width(image.nodes);
    let first = places::edges_start(image.nodes) + (end + end);
    let second = first + width as usize;
    read_fields(image.bytes, first, stride, width, &mut lows[..m]);
    read_fields(image.bytes, second, stride, width, &mut highs[..m]);
}

// Reads the payloads of nodes and edges.
fn read_payloads(nodes: &mut [u32], lows: &mut [u32], highs: &mut [u32], image: &Image)
    requires { PayloadsReadable nodes.old lows.old highs.old image.now.bytes.now image.now.nodes image.now.edges }
    ensures { PayloadsRead nodes.old lows.old highs.old image.now.bytes.now image.now.nodes image.now.edges nodes.new lows.new highs.new }
{
    let n = image.nodes as usize;
    let width = places::NODE_PAYLOAD_WIDTH;
    let first = places::NODES_START;
    read_fields(image.bytes, first, width as usize, width, &mut nodes[..n]);
    read_weights(lows, highs, image);
}

// Reads both directions.
fn read_axes(outgoing: &mut [u32], incoming: &mut [u32], layout: Layout, image: &Image)
    requires { AxesReadable outgoing.old incoming.old layout.edge_capacity layout.node_capacity image.now.bytes.now image.now.nodes image.now.edges }
    ensures { AxesRead outgoing.old incoming.old layout.edge_capacity layout.node_capacity image.now.bytes.now image.now.nodes image.now.edges
        outgoing.new incoming.new }
{
    let sources = places::edges_start(image.nodes);
    let targets = sources + least_width(image.nodes) as usize;
    let outs = places::outs_start(image.nodes, image.edges);
    let ins = places::ins_start(image.nodes, image.edges);
    read_axis(outgoing, layout, image, sources, outs);
    read_axis(incoming, layout, image, targets, ins);
}

// Puts what an image holds in place of all: payloads, both directions, every slot live and in the base.
fn place(store: &mut StoreMut, image: &Image)
    requires { Accepted (lengths_of (words_mut store.old)) image.now.bytes.now }
    ensures placed { ImagePlaced (words_mut store.old) image.now.bytes.now (words_mut store.new) }
    ensures same { SameSlices store.old store.new }
{
    let layout = store.layout();
    let outgoing = &mut *store.outgoing;
    let incoming = &mut *store.incoming;
    let nodes = &mut *store.nodes;
    let lows = &mut *store.lows;
    let highs = &mut *store.highs;
    read_axes(outgoing, incoming, layout, image);
    read_payloads(nodes, lows, highs, image);
    reset_all_live(store.live_nodes, image.nodes as usize);
    reset_all_live(store.live_edges, image.edges as usize);
    store.counts = Counts {
        nodes: Slots::all_based(image.nodes),
        edges: Slots::all_based(image.edges),
    };
}

// Refuses bytes that are no image, or that a device does not take, or for which the memory of these lengths has no room: "13, 12, 2", and on the skid 15 "in place of 13"
// and "right after 12".
fn check_image(device: Device, lengths: Lengths, bytes: &[u8]) -> Result<(), Refusal>
    ensures { done_of result ≡ read_image (device_of device) (measured lengths) bytes.now }
{
    let limits = device.limits();
    match first_broken(bytes) {
        Ok(()) => {
            let image = Image::new(bytes);
            check_reading(limits, lengths, Ok((image.nodes, image.edges)))
        }
        Err(rule) => check_reading(limits, lengths, Err(rule)),
    }
}

// Reads an image into a store's memory on a device, whatever stands there: on a box "13, 12, 2", on the skid 15 for the memory, 12, 15 for the image, 2. Refused, nothing
// is written.
pub fn read_image(device: Device, store: &mut StoreMut, bytes: &[u8]) -> Result<(), Refusal>
    ensures read { ReadOf (device_of device) (words_mut store.old) bytes.now (done_of result).number (done_of result).value (words_mut store.new) }
    ensures same { SameSlices store.old store.new }
{
    check_image(device, store.as_store().lengths(), bytes)?;
    place(store, &Image::new(bytes));
    Ok(())
}
