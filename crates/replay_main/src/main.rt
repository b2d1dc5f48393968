// Replays recorded calls: reads them from standard input, a call a line, and prints each answer on a line. The file stdout beside src has the answers of the Rust,
// so that a changed answer fails the gate. oracle/README.md tells how both files are made.
//
// A line is five words of eight hexadecimal digits, separated by a space: the kind of call and its arguments. Kinds: 0 fresh (node and edge capacity), 1 strip (words,
// words lent for the answers, lines that follow: the five words of an operation each), 2 and 3 walk out and in (node, words lent), 4 and 5 live nodes and edges
// (0, words lent), 6 node payload, 7 and 8 record in both readings, 9 bounds, counts, empty and compact, 10 and 11 degree out and in, 12 compaction (words lent for
// the node map, the edge map and the work), 13 finding (two nodes), 14 writing the image (words lent for the work, bytes lent), 15 reading an image (bytes, lines that follow: sixteen bytes
// each, in the last four words), 16 and 17 total out and in, 18 and 19 fresh and reading an image on the skid (as 0 and 15), 20 nearest lot (two lots, words lent for the work and for
// the chain), 22 the store joined with itself (words lent for each of the four maps).

#![tactic(auto)]

use replay::book::Book;
use replay::call::Call;
use replay::input;
use std::io;

// One call on the store.
fn step(rt: &(impl Input + Print), book: &mut Book, call: Call) -> io::Result<()> {
    match call {
        Call::Fresh {
            device,
            nodes,
            edges,
        } => replay_changes::fresh(rt, book, device, nodes, edges),
        Call::Strip {
            words,
            answers,
            lines,
        } => replay_changes::run_strip(rt, book, words, answers, lines),
        Call::Compact {
            node_map,
            edge_map,
            work,
        } => replay_changes::compact(rt, book, node_map, edge_map, work),
        Call::ReadImage {
            device,
            bytes,
            lines,
        } => replay_changes::read_image(rt, book, device, bytes, lines),
        Call::JoinWithItself { maps } => replay_joins::join_with_itself(rt, &book.store(), maps),
        Call::Read(read) => replay_reads::read(rt, &book.store(), read),
    }
}

// The calls of the input in turn, up to its end or a line of the kind ffffffff. A proved loop has to end, and nothing says that the input does: it counts to a number
// that no input uses up.
fn run(rt: &(impl Input + Print), book: &mut Book) -> io::Result<()> {
    for _ in 0..u64::MAX {
        let Some(line) = input::next(rt)? else {
            return Ok(());
        };
        if line[0] == input::END {
            return Ok(());
        }
        step(rt, book, Call::from(line))?;
    }
    Ok(())
}

fn main(rt: HostRuntime) -> io::Result<()> {
    let mut book = Book::new();
    run(&rt, &mut book)
}
