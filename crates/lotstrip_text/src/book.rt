// A strip booked on a fresh store of lotstrip's capacities, and the image of what survives it. All functions are internal: the room is required, so that no call
// is refused.

ghost use Rattle.std.specs.Prelude.{◌*◌, ◌≤◌, ◌%◌, ◌/◌, ◌≡◌, length};
ghost use Rattle.plain.specs.Operations.{operation_words};
ghost use Rattle.shape.specs.Stores.{SameSlices, words, words_mut};
ghost use Rattle.lotstrip_text.specs.Booking.{image_room, Bookable, Booked, Printable, Printed, Closing};

use crate::rooms::{AXIS, EDGES, LIVE_EDGES, LIVE_NODES, NODES, WORK};
use image_write::write_image;
use memory::Device;
use plain::Counts;
use shape::{Store, StoreMut};
use strip::{fresh, strip};

// Runs a strip on a fresh store, whatever stood there.
fn run_strip(store: &mut StoreMut, words: &[u32], answers: &mut [u32])
    requires { Bookable (words_mut store.old) words.now answers.old }
    ensures booked { Booked words.now answers.old (words_mut store.new) answers.new }
    ensures same { SameSlices store.old store.new }
{
    let lengths = store.as_store().lengths();
    store.counts = fresh(Device::Box, lengths).unwrap();
    strip(store, words, answers).unwrap();
}

// Writes the image of what survives in a store that a strip led to, and answers how many bytes it has. The work is of no further use.
fn print_image(store: &Store, bytes: &mut [u8]) -> usize
    requires { Printable (words store.now) bytes.old }
    ensures { Printed (words store.now) bytes.old result bytes.new }
{
    // No heap: a fixed array, as those below.
    let mut work: [u32; WORK] = [0; WORK];
    write_image(store, &mut work, bytes).unwrap()
}

// Books a strip: its answers to the start of `answers`, the image of what survives it to the start of `bytes`. Answers how many bytes the image has.
pub fn book(words: &[u32], answers: &mut [u32], bytes: &mut [u8]) -> usize
    requires { (length words.now % operation_words ≡ 0) × ((2 * (length words.now / operation_words) ≤ length answers.old) × (image_room ≤ length bytes.old)) }
    ensures { Closing words.now answers.old bytes.old answers.new result bytes.new }
{
    let mut nodes: [u32; NODES] = [0; NODES];
    let mut lows: [u32; EDGES] = [0; EDGES];
    let mut highs: [u32; EDGES] = [0; EDGES];
    let mut live_nodes: [u64; LIVE_NODES] = [0; LIVE_NODES];
    let mut live_edges: [u64; LIVE_EDGES] = [0; LIVE_EDGES];
    let mut outgoing: [u32; AXIS] = [0; AXIS];
    let mut incoming: [u32; AXIS] = [0; AXIS];
    let mut store = StoreMut {
        counts: Counts::default(),
        nodes: &mut nodes,
        lows: &mut lows,
        highs: &mut highs,
        live_nodes: &mut live_nodes,
        live_edges: &mut live_edges,
        outgoing: &mut outgoing,
        incoming: &mut incoming,
    };
    run_strip(&mut store, words, answers);
    print_image(&store.as_store(), bytes)
}
