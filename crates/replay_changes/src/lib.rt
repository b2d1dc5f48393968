// Recorded calls that change the store, for the program replay_main: a fresh one, a strip, a compaction, an image read. Each prints what was answered and written.

#![tactic(auto)]

use memory::Device;
use plain::Answer;
use replay::book::Book;
use replay::input;
use replay::print::{print_written, within};
use std::io;

// A fresh store of other capacities in the same memory.
pub fn fresh(
    rt: &impl Print,
    book: &mut Book,
    device: Device,
    nodes: u32,
    edges: u32,
) -> io::Result<()> {
    book.node_capacity = nodes;
    book.edge_capacity = edges;
    let made = strip::fresh(device, book.store().lengths());
    book.counts = made.unwrap_or_default();
    rt.println(Answer::from(made.map(|_| ())))
}

// A strip, whole.
pub fn run_strip(
    rt: &(impl Input + Print),
    book: &mut Book,
    words: u32,
    answers: u32,
    lines: u32,
) -> io::Result<()> {
    let mut lent_words: [u32; 4096] = [0; 4096];
    let mut lent_answers: [u32; 2048] = [0; 2048];
    input::read_operations(rt, &mut lent_words, lines)?;
    let length = within(words, &lent_words);
    let room = within(answers, &lent_answers);
    let mut store = book.store_mut();
    let done = strip::strip(&mut store, &lent_words[..length], &mut lent_answers[..room]);
    book.counts = store.counts;
    print_written(rt, done, &lent_answers[..room])
}

// A compaction with slices of the recorded lengths; where it is done, maps and work.
pub fn compact(
    rt: &impl Print,
    book: &mut Book,
    node_map: u32,
    edge_map: u32,
    work: u32,
) -> io::Result<()> {
    let mut lent_node_map: [u32; 2048] = [0; 2048];
    let mut lent_edge_map: [u32; 2048] = [0; 2048];
    let mut lent_work: [u32; 2048] = [0; 2048];
    let nodes = within(node_map, &lent_node_map);
    let edges = within(edge_map, &lent_edge_map);
    let words = within(work, &lent_work);
    let mut store = book.store_mut();
    let done = compact::compact(
        &mut store,
        &mut lent_node_map[..nodes],
        &mut lent_edge_map[..edges],
        &mut lent_work[..words],
    );
    book.counts = store.counts;
    print_written(rt, done, &lent_node_map[..nodes])?;
    print_written(rt, done, &lent_edge_map[..edges])?;
    print_written(rt, done, &lent_work[..words])
}

// An image read in place of all, on a box or on the skid.
pub fn read_image(
    rt: &(impl Input + Print),
    book: &mut Book,
    device: Device,
    bytes: u32,
    lines: u32,
) -> io::Result<()> {
    let mut lent_bytes: [u8; 4096] = [0; 4096];
    input::read_bytes(rt, &mut lent_bytes, lines)?;
    let length = within(bytes, &lent_bytes);
    let mut store = book.store_mut();
    let read = image_read::read_image(device, &mut store, &lent_bytes[..length]);
    book.counts = store.counts;
    rt.println(Answer::from(read))
}
