// Walks over one node's adjacency in one direction, from the packed axis: where a walk starts, its edges, their number and weights, and the first that ends at a
// node. Both directions use the same functions with the one axis or the other. `live` says whether the node is live.

ghost use Rattle.std.specs.Prelude.{◌*◌, ◌≤◌, ◌≡◌, cond, [], length, unwrap_or};
ghost use Rattle.plain.specs.Numbers.{NONE as none};
ghost use Rattle.liveness.specs.Flags.{live_flags};
ghost use Rattle.shape.specs.Shape.{adjacency_in, raw};
ghost use Rattle.cursor.specs.Cursor.{listed as is_listed, listed_by};
ghost use Rattle.adjacency.specs.Walk.{side_walk, tombstoned_in, entries_column, next_column, ColumnsThere, Readable, Walkable, WalkSummable, Started};
ghost use Rattle.cursor.specs.Finding.{first_of, ends_at, Among};
ghost use Rattle.cursor.specs.Summing.{sums_of};

use crate::axis::Axis;
use crate::{index, rings};
use cursor::edges::AdjacentEdges;
use cursor::entries::Entries;
use cursor::listed::Listed;
use cursor::{AdjacencyCursor, Start};
use plain::{Counts, NONE, Sums};
use shape::{Incidence, Layout};

// Whether some edge is removed.
pub fn tombstoned(counts: Counts) -> bool
    ensures { result ≡ tombstoned_in counts }
{
    counts.edges.live != counts.edges.bound
}

// Which edges are listed, by the counts and the live words.
pub fn listed_edges(counts: Counts, live_edges: &[u64]) -> Listed<'_>
    requires { counts.edges.bound ≤ 64 * length live_edges.now }
    ensures { listed_by result ≡ is_listed (tombstoned_in counts) (live_flags live_edges.now counts.edges.bound) }
{
    Listed {
        tombstoned: tombstoned(counts),
        live: live_edges,
        slots: counts.edges.bound as usize,
    }
}

// Where the walk over a node's adjacency starts.
pub fn start(axis: &[u32], layout: Layout, node: usize, live: bool) -> Start
    requires { Readable axis.now layout.edge_capacity layout.node_capacity layout.counts node }
    ensures { Started axis.now layout.edge_capacity layout.node_capacity layout.counts node live result }
{
    if !live {
        return Start {
            linked: false,
            cursor: AdjacencyCursor::exhausted(),
        };
    }
    let (delta, delta_last) = match rings::ring_ends(axis, layout, node) {
        Some(ring) => (ring.first, ring.last),
        None => (NONE, NONE),
    };
    let mark = axis[4 * layout.edge_capacity + 4 * layout.node_capacity + node];
    if mark != 0 {
        return Start {
            linked: true,
            cursor: AdjacencyCursor {
                base: axis[4 * layout.edge_capacity + layout.node_capacity + node],
                base_end: axis[4 * layout.edge_capacity + 3 * layout.node_capacity + node],
                delta,
                delta_last,
            },
        };
    }
    let bounds = index::base_bounds(axis, layout, node);
    Start {
        linked: false,
        cursor: AdjacencyCursor {
            base: bounds.start,
            base_end: bounds.end,
            delta,
            delta_last,
        },
    }
}

// The column that a walk reads before the ring: the run links, or the compressed index's edge numbers.
pub fn entries_of(axis: &[u32], layout: Layout, linked: bool) -> &[u32]
    requires { ColumnsThere axis.now layout.edge_capacity }
    ensures { result.now ≡ entries_column axis.now layout.edge_capacity linked }
{
    if linked {
        let from = 3 * layout.edge_capacity;
        let to = 4 * layout.edge_capacity;
        return &axis[from..to];
    }
    let to = 2 * layout.edge_capacity;
    &axis[layout.edge_capacity..to]
}

// The column of the ring links.
pub fn next_of(axis: &[u32], layout: Layout) -> &[u32]
    requires { ColumnsThere axis.now layout.edge_capacity }
    ensures { result.now ≡ next_column axis.now layout.edge_capacity }
{
    let from = 2 * layout.edge_capacity;
    let to = 3 * layout.edge_capacity;
    &axis[from..to]
}

// The entries of a live node's adjacency, dead ones included: of its run or base part, and then of its ring.
pub fn entries(axis: &[u32], layout: Layout, node: usize, live: bool) -> Entries<'_>
    requires { Readable axis.now layout.edge_capacity layout.node_capacity layout.counts node }
    ensures { result ≡ cond live (raw (adjacency_in axis.now layout.edge_capacity layout.node_capacity layout.counts node)) [] }
{
    let start = start(axis, layout, node, live);
    let columns = Axis::of(axis, layout, start.linked);
    Entries::of(start.cursor, start.linked, columns.entries, columns.next)
}

// The walk over a node's adjacency: the listed ones of its entries.
pub fn edges<'a>(side: Incidence<'a>, node: usize, live: bool) -> AdjacentEdges<'a>
    requires { Walkable side.axis.now side.layout.edge_capacity side.layout.node_capacity side.layout.counts side.live_edges.now node }
    ensures { result ≡ side_walk side.entry node live }
{
    entries(side.axis, side.layout, node, live).listed(listed_edges(
        side.layout.counts,
        side.live_edges,
    ))
}

// How many entries a node's walk has.
pub fn count_walk(side: Incidence, node: usize, live: bool) -> usize
    requires { Walkable side.axis.now side.layout.edge_capacity side.layout.node_capacity side.layout.counts side.live_edges.now node }
    ensures { result ≡ length (side_walk side.entry node live) }
{
    edges(side, node, live).count()
}

// The degree of a node: how many entries its walk has. Where no edge is removed, only the ring is walked.
pub fn degree(side: Incidence, node: usize, live: bool) -> usize
    requires { Walkable side.axis.now side.layout.edge_capacity side.layout.node_capacity side.layout.counts side.live_edges.now node }
    ensures { result ≡ length (side_walk side.entry node live) }
{
    if tombstoned(side.layout.counts) {
        return count_walk(side, node, live);
    }
    let start = start(side.axis, side.layout, node, live);
    start.cursor.part_count(start.linked) + start.cursor.ring_count(next_of(side.axis, side.layout))
}

// The first entry of a node's walk whose far end is `end`. `far` is the axis of the other direction.
pub fn find(side: Incidence, far: &[u32], node: usize, live: bool, end: u32) -> Option<u32>
    requires walkable { Walkable side.axis.now side.layout.edge_capacity side.layout.node_capacity side.layout.counts side.live_edges.now node }
    requires edge_capacity_in_bounds { side.layout.edge_capacity ≤ length far.now }
    ensures first { unwrap_or result none ≡ first_of (ends_at far.now end) (side_walk side.entry node live) }
    ensures among { Among result (side_walk side.entry node live) }
{
    entries(side.axis, side.layout, node, live).find_end(
        far,
        end,
        listed_edges(side.layout.counts, side.live_edges),
    )
}

// The sum of the lowest and the sum of the highest weights of a node's walk.
pub fn total(side: Incidence, node: usize, live: bool, lows: &[u32], highs: &[u32]) -> Sums
    requires { WalkSummable side.axis.now side.layout.edge_capacity side.layout.node_capacity side.layout.counts side.live_edges.now node live lows.now highs.now }
    ensures { result ≡ sums_of lows.now highs.now (side_walk side.entry node live) }
{
    edges(side, node, live).total(lows, highs)
}
