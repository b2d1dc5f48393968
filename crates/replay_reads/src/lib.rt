// Recorded calls that leave the store as it is, for the program replay_main. Each prints a line, or some.

#![tactic(auto)]

use plain::answers::Value;
use plain::refusals::Refusal;
use plain::{Answer, Record, Total};
use replay::call::Read;
use replay::print::{print_words, print_written, within};
use shape::Store;
use std::io;

// The value beside the number of what a call came to.
fn value_of<T: Value>(came: Result<T, Refusal>) -> u64 {
    Answer::from(came).value
}

// The first of the words that a call was lent, as many as it wrote.
fn first_words<W>(words: &[W], count: u64) -> &[W] {
    &words[..(count as usize).min(words.len())]
}

// The image into lent bytes, and those that were written.
pub fn print_image(
    rt: &impl Print,
    store: &Store,
    work: &mut [u32],
    bytes: &mut [u8],
) -> io::Result<()> {
    let written = image_write::write_image(store, work, bytes);
    print_written(rt, written, first_words(bytes, value_of(written)))
}

// The image with a work slice and into bytes of the recorded lengths.
fn write_image(rt: &impl Print, store: &Store, work: u32, bytes: u32) -> io::Result<()> {
    let mut lent_work: [u32; 2048] = [0; 2048];
    let mut lent_bytes: [u8; 4096] = [0; 4096];
    let words = within(work, &lent_work);
    let room = within(bytes, &lent_bytes);
    print_image(rt, store, &mut lent_work[..words], &mut lent_bytes[..room])
}

// A list, by a call into a slice of the recorded length.
fn print_list<T: Value + Copy, F: FnOnce(&mut [u32]) -> Result<T, Refusal> + Drop>(
    rt: &impl Print,
    room: u32,
    list: F,
) -> io::Result<()>
    requires { F.IsAlwaysCallable list }
{
    let mut slots: [u32; 2048] = [0; 2048];
    let lent = within(room, &slots);
    let listed = list(&mut slots[..lent]);
    print_written(rt, listed, first_words(&slots, value_of(listed)))
}

// Bounds, counts, whether the store is empty and whether it is compact: the values alone.
fn print_whole(rt: &impl Print, store: &Store) -> io::Result<()> {
    let node_bound = value_of(view::whole::node_bound(store));
    let edge_bound = value_of(view::whole::edge_bound(store));
    let node_count = value_of(view::whole::node_count(store));
    let edge_count = value_of(view::whole::edge_count(store));
    let empty = value_of(view::whole::is_empty(store));
    let compact = value_of(view::compactness::is_compact(store));
    println!(rt; "{node_bound} {edge_bound} {node_count} {edge_count} {empty} {compact}")
}

// The nearest lot with slices of the recorded lengths. No word of the work slice is clear before; behind number and value, how many then are.
fn print_nearest(
    rt: &impl Print,
    store: &Store,
    first: u32,
    second: u32,
    work: u32,
    chain: u32,
) -> io::Result<()> {
    let mut lent_work: [u32; 2048] = [1; 2048];
    let mut lent_chain: [u32; 2048] = [0; 2048];
    let words = within(work, &lent_work);
    let room = within(chain, &lent_chain);
    let found = nearest::nearest(
        store,
        first,
        second,
        &mut lent_work[..words],
        &mut lent_chain[..room],
    );
    let clear = lent_work.iter().filter(|word| **word == 0).count();
    let answer = Answer::from(found);
    print!(rt; "{answer} {clear}")?;
    let length = found.map_or(0, |length| length as u64);
    print_words(rt, first_words(&lent_chain, length))
}

// One call that leaves the store as it is.
pub fn read(rt: &impl Print, store: &Store, read: Read) -> io::Result<()> {
    match read {
        Read::Walk {
            direction,
            node,
            room,
        } => print_list(rt, room, |slots| {
            view_walks::walk(store, direction, node, slots)
        }),
        Read::NodeIds { room } => print_list(rt, room, |slots| view::ids::node_ids(store, slots)),
        Read::EdgeIds { room } => print_list(rt, room, |slots| view::ids::edge_ids(store, slots)),
        Read::NodePayload { node } => {
            rt.println(Answer::from(view::slots::node_payload(store, node)))
        }
        Read::EdgeRecord { edge } => {
            rt.println(Record::from(view::slots::edge_record(store, edge)))
        }
        Read::LiveEdgeRecord { edge } => {
            rt.println(Record::from(view::slots::live_edge_record(store, edge)))
        }
        Read::Whole => print_whole(rt, store),
        Read::Degree { direction, node } => {
            rt.println(Answer::from(view_walks::degree(store, direction, node)))
        }
        Read::Find { first, second } => rt.println(Answer::from(view_walks::finding::find(
            store, first, second,
        ))),
        Read::WriteImage { work, bytes } => write_image(rt, store, work, bytes),
        Read::Total { direction, node } => {
            rt.println(Total::from(view_walks::total(store, direction, node)))
        }
        Read::Nearest {
            first,
            second,
            work,
            chain,
        } => print_nearest(rt, store, first, second, work, chain),
    }
}
