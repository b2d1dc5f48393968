// Rules 6 and 7 of one direction at once, quickly, and only as a yes: a pass over the nodes that have a run, one over the compressed index, and one over the
// edges of the delta. Each marks what it finds in one map, so that nothing is found twice, and in the end every live edge is marked. Runs are followed once, and
// with them the rings of their nodes; what has no run is looked at entry by entry, not node by node, since a walk of unknown length is what a check is slow at.

ghost use Rattle.std.specs.Prelude.{ℕ, ◌*◌, ◌<◌, ◌≡◌, true, false, not, length, get_or, eqb};
ghost use Rattle.liveness.specs.Flags.{live_bit, live_flags};
ghost use Rattle.shape.specs.Columns.{Sized, end_at, mark_at};
ghost use Rattle.shape.specs.Rules.{runs_right as runs_test};
ghost use Rattle.marks.specs.Marks.{marked, Adds};
ghost use Rattle.validate_words.specs.Climbs.{Linked, LinkReadable};
ghost use Rattle.validate_lists.specs.Walks.{walks_test};
ghost use Rattle.validate.specs.Flat.{at_base, base_entries, delta_links, places, PlaceReadable, EntryPlaced, CountReadable, BaseFlat, DeltaFlat, ListsOnce, FlatReadable, ListsReadable};

use marks::{WORDS, mark};
use shape::{Incidence, Layout};
use validate_lists::runs::runs_once;
use validate_lists::walks::live_marked;
use validate_words::axes::no_runs;
use validate_words::rings::{edge_linked, pick};

// Whether a node has a run; where none has, `runless` says so, told once for the axis: then no mark is read, no run followed and no place counted. An Option of the marks in
// its place would be no plainer, since each contract here would still speak of the axis beside it.
fn has_run(axis: &[u32], layout: Layout, runless: bool, node: usize) -> bool
    requires { Sized axis.now layout.edge_capacity layout.node_capacity × (node < layout.node_capacity) × (runless ≡ true → mark_at axis.now layout.edge_capacity layout.node_capacity node ≡ 0) }
    ensures { result ≡ not (eqb (mark_at axis.now layout.edge_capacity layout.node_capacity node) 0) }
{
    !runless && axis[4 * layout.edge_capacity + 4 * layout.node_capacity + node] != 0
}

// Whether entry i of the compressed index, edge `edge`, stands in the part of its end; only the yes is promised.
fn entry_placed(axis: &[u32], layout: Layout, i: u32, edge: u32) -> bool
    requires { PlaceReadable axis.now layout.edge_capacity layout.node_capacity layout.counts.nodes.base edge }
    ensures { result ≡ true → EntryPlaced axis.now layout.edge_capacity layout.node_capacity layout.counts.nodes.base i edge }
{
    let node = axis[edge as usize];
    if node >= layout.counts.nodes.base {
        return false;
    }
    let at = 4 * layout.edge_capacity + 5 * layout.node_capacity + node as usize;
    axis[at] <= i && i < axis[at + 1]
}

// How many entries the compressed index has in the parts of nodes that have no run. No early exit and no branch on a mark, so that it is a pass over the words.
fn count_places(axis: &[u32], layout: Layout) -> u32
    requires { CountReadable axis.now layout.edge_capacity layout.node_capacity layout.counts.nodes.base }
    ensures { result ≡ length (places axis.now layout.edge_capacity layout.node_capacity layout.counts.nodes.base) }
{
    let base = layout.counts.nodes.base as usize;
    let marks = 4 * layout.edge_capacity + 4 * layout.node_capacity;
    let offsets = 4 * layout.edge_capacity + 5 * layout.node_capacity;
    let mut total = 0;
    for x in 0..base {
        let size = axis[offsets + (x + 1)] - axis[offsets + x];
        total += pick(axis[marks + x], 0, size, 0);
    }
    total
}

// Whether every entry of the compressed index whose end has no run stands in the part of that end, no such entry is marked, and no other stands in such a part, which
// is told by their number. Marks them; only the yes is promised.
fn base_flat(axis: &[u32], layout: Layout, runless: bool, seen: &mut [u64]) -> bool
    requires { FlatReadable axis.now layout.edge_capacity layout.node_capacity layout.counts runless seen.old }
    ensures { result ≡ true → BaseFlat axis.now layout.edge_capacity layout.node_capacity layout.counts × Adds (base_entries axis.now layout.edge_capacity layout.node_capacity layout.counts.edges.base) seen.old seen.new }
{
    let base = layout.counts.edges.base;
    let mut placed = 0;
    for i in 0..base {
        let e = axis[layout.edge_capacity + i as usize];
        let node = axis[e as usize] as usize;
        if has_run(axis, layout, runless, node) {
            continue;
        }
        if !entry_placed(axis, layout, i, e) {
            return false;
        }
        if !mark(seen, e as usize) {
            return false;
        }
        placed += 1;
    }
    runless || count_places(axis, layout) == placed
}

// Whether every edge of the delta whose end has no run is linked, and no link of such an edge is marked. Marks them; only the yes is promised.
fn delta_flat(axis: &[u32], layout: Layout, runless: bool, seen: &mut [u64]) -> bool
    requires { FlatReadable axis.now layout.edge_capacity layout.node_capacity layout.counts runless seen.old }
    ensures { result ≡ true → DeltaFlat axis.now layout.edge_capacity layout.node_capacity layout.counts × Adds (delta_links axis.now layout.edge_capacity layout.node_capacity layout.counts) seen.old seen.new }
{
    let base = layout.counts.edges.base;
    let bound = layout.counts.edges.bound;
    for e in base..bound {
        let node = axis[e as usize] as usize;
        if has_run(axis, layout, runless, node) {
            continue;
        }
        if !edge_linked(axis, layout, e) {
            return false;
        }
        if !mark(seen, axis[2 * layout.edge_capacity + e as usize] as usize) {
            return false;
        }
    }
    true
}

// Whether an edge's end is live if the edge is, by their bits alone, with no branch on what they are.
fn end_live(axis: &[u32], live_nodes: &[u64], live_edges: &[u64], edge: usize) -> bool
    requires { (edge < length axis.now) × (edge < 64 * length live_edges.now) × (end_at axis.now edge < 64 * length live_nodes.now) }
    ensures { result ≡ true → live_bit live_edges.now edge ≡ true → live_bit live_nodes.now (end_at axis.now edge) ≡ true }
{
    let node = axis[edge] as usize;
    let of_edge = (live_edges[edge / 64] >> (edge % 64)) % 2;
    let of_node = (live_nodes[node / 64] >> (node % 64)) % 2;
    of_edge <= of_node
}

// Whether the end of every live edge is live, with no early exit, so that it is a pass over the words; only the yes is promised.
fn ends_live(side: &Incidence) -> bool
    requires { ListsReadable side.now.axis.now side.now.layout.edge_capacity side.now.layout.node_capacity side.now.layout.counts side.now.live_nodes.now side.now.live_edges.now }
    ensures { result ≡ true → (e : ℕ) → e < side.now.layout.counts.edges.bound → get_or (live_flags side.now.live_edges.now side.now.layout.counts.edges.bound) e false ≡ true → get_or (live_flags side.now.live_nodes.now side.now.layout.counts.nodes.bound) (end_at side.now.axis.now e) false ≡ true }
{
    let bound = side.layout.counts.edges.bound as usize;
    if side.layout.counts.nodes.live == side.layout.counts.nodes.bound {
        return true;
    }
    let mut right = true;
    for e in 0..bound {
        right &= end_live(side.axis, side.live_nodes, side.live_edges, e);
    }
    right
}

// The three passes, on a clear map; only the yes is promised.
fn lists_once(side: &Incidence, runless: bool, seen: &mut [u64]) -> bool
    requires { ListsReadable side.now.axis.now side.now.layout.edge_capacity side.now.layout.node_capacity side.now.layout.counts side.now.live_nodes.now side.now.live_edges.now × FlatReadable side.now.axis.now side.now.layout.edge_capacity side.now.layout.node_capacity side.now.layout.counts runless seen.old × ((e : ℕ) → marked seen.old e ≡ false) }
    ensures { result ≡ true → ListsOnce side.now.axis.now side.now.layout.edge_capacity side.now.layout.node_capacity side.now.layout.counts seen.new }
{
    if !runless && !runs_once(side, seen) {
        return false;
    }
    base_flat(side.axis, side.layout, runless, seen)
        && delta_flat(side.axis, side.layout, runless, seen)
}

// Whether the lists of one direction are quickly seen to be right, by rule 6 and by rule 7; only the yes is promised.
pub fn lists_flat(side: &Incidence) -> bool
    requires { ListsReadable side.now.axis.now side.now.layout.edge_capacity side.now.layout.node_capacity side.now.layout.counts side.now.live_nodes.now side.now.live_edges.now }
    ensures { result ≡ true → (runs_test side.now.layout.edge_capacity side.now.layout.node_capacity side.now.layout.counts (live_flags side.now.live_nodes.now side.now.layout.counts.nodes.bound) (live_flags side.now.live_edges.now side.now.layout.counts.edges.bound) side.now.axis.now ≡ true) × (walks_test side.now.axis.now side.now.layout.edge_capacity side.now.layout.node_capacity side.now.layout.counts side.now.live_nodes.now side.now.live_edges.now ≡ true) }
{
    let slots = side.layout.counts.edges.bound as usize;
    let runless = no_runs(side.axis, side.layout);
    let mut seen = [0u64; WORDS];
    if !lists_once(side, runless, &mut seen) {
        return false;
    }
    ends_live(side) && live_marked(side.live_edges, &seen, slots)
}
