// One direction's columns as slices of their own, resolved once for a walk (`Axis` of the Rust). It is thin: what reads the columns is over plain slices, in the
// other files.

ghost use Rattle.std.specs.Prelude.{◌<◌, ◌≡◌, length};
ghost use Rattle.shape.specs.Columns.{Sized};
ghost use Rattle.adjacency.specs.Index.{offsets_column, bounds_at};
ghost use Rattle.adjacency.specs.Axis.{Columns};

use crate::index::BaseBounds;
use crate::{index, walk};
use shape::Layout;

// `entries` is what a walk reads before the ring: the compressed index's edge numbers, or in their place the run links, where the walk is linked. `next` is the
// ring links.
#[derive(Clone, Copy)]
pub struct Axis<'a> {
    pub offsets: &'a [u32],
    pub entries: &'a [u32],
    pub next: &'a [u32],
}

// The column of the compressed index's offsets.
pub fn offsets_of(axis: &[u32], layout: Layout) -> &[u32]
    requires { Sized axis.now layout.edge_capacity layout.node_capacity }
    ensures { result.now ≡ offsets_column axis.now layout.edge_capacity layout.node_capacity }
{
    let from = 4 * layout.edge_capacity + 5 * layout.node_capacity;
    let to = from + layout.node_capacity + 1;
    &axis[from..to]
}

impl<'a> Axis<'a> {
    // Of the parts of one packed slice.
    pub fn of(words: &'a [u32], layout: Layout, linked: bool) -> Axis<'a>
        requires { Sized words.now layout.edge_capacity layout.node_capacity }
        ensures { Columns words.now layout.edge_capacity layout.node_capacity linked result }
    {
        Axis {
            offsets: offsets_of(words, layout),
            entries: walk::entries_of(words, layout, linked),
            next: walk::next_of(words, layout),
        }
    }

    // Where the base part of a node begins and ends among the adjacency words.
    pub fn bounds(self, base: usize, node: usize) -> BaseBounds
        requires { base < length self.offsets.now }
        ensures { result ≡ bounds_at self.entry.offsets.now base node }
    {
        index::bounds_at(self.offsets, base, node)
    }
}
