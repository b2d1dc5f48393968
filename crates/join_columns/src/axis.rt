// One direction of two books in a new base: the ends of the first book's live edges and then the second's, the lists of the first's live nodes and then the second's, all by
// new numbers. All functions are internal.

ghost use Rattle.std.specs.Prelude.{◌≡◌, ◌++◌};
ghost use Rattle.plain.specs.Lists.{written};
ghost use Rattle.plain.specs.declared.TraversalDirection.{TraversalDirection};
ghost use Rattle.shape.specs.Stores.{words};
ghost use Rattle.join_columns.specs.Sides.{side_of, side_ends, side_entries, EndsFit, EntriesFit, BothEndsFit, BothEntriesFit, AxisJoinable, AxisJoined};
ghost use Rattle.join_columns.specs.Books.{side_in};

use crate::slots::copy_live;
use adjacency::index::count_offsets;
use adjacency::rings::open_nodes;
use plain::TraversalDirection;
use shape::{Layout, Store};
use survivors::lists::write_lists;
use survivors::maps::MapsMut;
use survivors::slots::translate;

// A book that is joined, and the maps of its live slots. The store by a reference: it is too large to be copied without a call of memcpy.
#[derive(Clone, Copy)]
pub struct Book<'s, 'r, 'm> {
    pub store: &'r Store<'s>,
    pub node_map: &'m [u32],
    pub edge_map: &'m [u32],
}

impl<'s, 'r, 'm> Book<'s, 'r, 'm> {
    // A store with the maps that have been written.
    pub fn of(store: &'r Store<'s>, maps: &'m MapsMut<'_>) -> Book<'s, 'r, 'm>
        ensures { (d : TraversalDirection) → side_in d result ≡ side_of d (words store.now) maps.now.nodes.now maps.now.edges.now }
    {
        Book {
            store,
            node_map: maps.nodes,
            edge_map: maps.edges,
        }
    }
}

// Writes the ends of the live edges, put through the node map, to the start of `out`.
fn copy_ends(book: &Book, direction: TraversalDirection, out: &mut [u32])
    requires { EndsFit (side_in direction book.now) out.old }
    ensures { out.new ≡ written (side_ends (side_in direction book.now)) out.old }
{
    let edge_slots = book.store.counts.edges;
    copy_live(
        book.store.axis(direction),
        book.store.live_edges,
        edge_slots.bound as usize,
        out,
    );
    translate(&mut out[..edge_slots.live as usize], book.node_map);
}

// Writes the lists of the live nodes, one behind the other and put through the edge map, to the start of `out`.
fn write_entries(book: &Book, direction: TraversalDirection, out: &mut [u32])
    requires { EntriesFit (side_in direction book.now) out.old }
    ensures { out.new ≡ written (side_entries (side_in direction book.now)) out.old }
{
    write_lists(book.store, direction, out);
    let count = book.store.counts.edges.live as usize;
    translate(&mut out[..count], book.edge_map);
}

// The ends of the first book's live edges, then those of the second's.
fn join_ends(out: &mut [u32], direction: TraversalDirection, first: &Book, second: &Book)
    requires { BothEndsFit out.old (side_in direction first.now) (side_in direction second.now) }
    ensures { out.new ≡ written (side_ends (side_in direction first.now) ++ side_ends (side_in direction second.now)) out.old }
{
    let count = first.store.counts.edges.live as usize;
    copy_ends(first, direction, out);
    copy_ends(second, direction, &mut out[count..]);
}

// The lists of the first book's live nodes, then those of the second's.
fn join_entries(out: &mut [u32], direction: TraversalDirection, first: &Book, second: &Book)
    requires { BothEntriesFit out.old (side_in direction first.now) (side_in direction second.now) }
    ensures { out.new ≡ written (side_entries (side_in direction first.now) ++ side_entries (side_in direction second.now)) out.old }
{
    let count = first.store.counts.edges.live as usize;
    write_entries(first, direction, out);
    write_entries(second, direction, &mut out[count..]);
}

// One direction of both books in a new base: the ends, the offsets counted from them, the lists straight into the adjacency column, every ring empty, and no run.
pub fn join_axis(
    axis: &mut [u32],
    layout: Layout,
    direction: TraversalDirection,
    first: &Book,
    second: &Book,
)
    requires { AxisJoinable axis.old layout.edge_capacity layout.node_capacity (side_in direction first.now) (side_in direction second.now) }
    ensures { AxisJoined axis.old layout.edge_capacity layout.node_capacity (side_in direction first.now) (side_in direction second.now) axis.new }
{
    let n = first.store.counts.nodes.live as usize + second.store.counts.nodes.live as usize;
    let m = first.store.counts.edges.live as usize + second.store.counts.edges.live as usize;
    join_ends(axis, direction, first, second);
    count_offsets(axis, layout, n, m);
    join_entries(&mut axis[layout.edge_capacity..], direction, first, second);
    open_nodes(axis, layout, n);
}
