// Rule 5 for one direction: the rings. A ring is followed over the node's own edges of the delta only, and no further than there are such edges, so that the
// rings that pass cost a step an edge together, and the first that does not ends the check. Rings that climb, as all do that edges are only added to, are not
// followed: one pass over the edges of the delta in their order tells that they close.

ghost use Rattle.std.specs.Prelude.{◌+◌, ◌^◌, ◌≤◌, ◌<◌, ◌≡◌, true, cond, not, length, get_or, eqb};
ghost use Rattle.plain.specs.Numbers.{NONE};
ghost use Rattle.plain.specs.Lists.{all, from, count as count_of};
ghost use Rattle.shape.specs.Rules.{ring_right as ring_test};
ghost use Rattle.validate_words.specs.Sizes.{AxisSized};
ghost use Rattle.validate_words.specs.Rings.{own_test, RingReadable};
ghost use Rattle.validate_words.specs.Climbs.{Picked, is_last, some_at, Linked, Climbs, EndReadable, LinkReadable, StepReadable};

use plain::NONE;
use shape::Layout;

// Whether an edge may be in the ring of a node: it is of the delta, and the node is its end.
#[tactic(auto, unfolding(crate::specs::Rings::own_test))]
fn own_edge(axis: &[u32], base: u32, bound: u32, node: u32, edge: u32) -> bool
    requires { bound ≤ length axis.now }
    ensures { result ≡ own_test base bound axis.now node edge }
{
    base <= edge && edge < bound && axis[edge as usize] == node
}

// The ring of one node: none, or the links from its last edge come back to it.
fn ring_right(axis: &[u32], layout: Layout, node: u32) -> bool
    requires { RingReadable axis.now layout.edge_capacity layout.counts.edges.base layout.counts.edges.bound node }
    ensures { result ≡ ring_test layout.edge_capacity layout.counts.edges.base layout.counts.edges.bound axis.now node }
{
    let base = layout.counts.edges.base;
    let bound = layout.counts.edges.bound;
    // Not by adjacency::rings::ring_ends, which asks that the last be an edge: that is what is tested here.
    let last = axis[4 * layout.edge_capacity + node as usize];
    if last == NONE {
        return true;
    }
    if last >= bound {
        return false;
    }
    let mut e = axis[2 * layout.edge_capacity + last as usize];
    for _ in base..bound {
        if !own_edge(axis, base, bound, node, e) {
            return false;
        }
        if e == last {
            return true;
        }
        e = axis[2 * layout.edge_capacity + e as usize];
    }
    false
}

// One of two numbers, by whether two edges are the same: no branch on what the words hold.
pub fn pick(a: u32, b: u32, same: u32, other: u32) -> u32
    ensures { Picked a b same other result }
{
    if a == b { same } else { other }
}

// Whether an edge's link is an edge of the delta of the same end, and further up unless the edge is the last of its end's ring; only the yes is promised.
pub fn edge_linked(axis: &[u32], layout: Layout, edge: u32) -> bool
    requires { LinkReadable axis.now layout.edge_capacity layout.node_capacity layout.counts.edges.bound edge }
    ensures { result ≡ true → Linked axis.now layout.edge_capacity layout.counts.edges.base layout.counts.edges.bound edge }
{
    let bound = layout.counts.edges.bound;
    let node = axis[edge as usize];
    let last = axis[4 * layout.edge_capacity + node as usize];
    let next = axis[2 * layout.edge_capacity + edge as usize];
    layout.counts.edges.base <= next
        && next < bound
        && axis[next as usize] == node
        && pick(last, edge, bound, next) > edge
}

// Whether the end of an edge of the delta is a node, and where that has a ring the edge is linked; only the yes is promised.
fn edge_climbs(axis: &[u32], layout: Layout, edge: u32) -> bool
    requires { StepReadable axis.now layout.edge_capacity layout.node_capacity layout.counts.edges.bound layout.counts.nodes.bound edge }
    ensures { result ≡ true → Climbs axis.now layout.edge_capacity layout.counts.edges.base layout.counts.edges.bound layout.counts.nodes.bound edge }
{
    let node = axis[edge as usize];
    if node >= layout.counts.nodes.bound {
        return false;
    }
    axis[4 * layout.edge_capacity + node as usize] == NONE || edge_linked(axis, layout, edge)
}

// How many rings an edge is the last of, 1 or 0: added up with no branch on what the words hold.
fn rings_ended(axis: &[u32], layout: Layout, edge: u32) -> u32
    requires { EndReadable axis.now layout.edge_capacity layout.node_capacity edge }
    ensures { result ≡ cond (is_last axis.now layout.edge_capacity edge) 1 0 }
{
    let node = axis[edge as usize];
    u32::from(axis[4 * layout.edge_capacity + node as usize] == edge)
}

// How many words are not NONE: of the column of last edges, how many nodes have a ring. No early exit, so that it is a pass over vectors.
fn ring_count(lasts: &[u32]) -> u32
    requires { length lasts.now < 2 ^ 32 }
    ensures { result ≡ count_of (λ x. not (eqb (get_or lasts.now x 0) NONE)) (from 0 (length lasts.now)) }
{
    let mut rings = 0;
    for last in lasts {
        rings += u32::from(*last != NONE);
    }
    rings
}

// Whether the rings climb, which is quick to see and enough: no edge of the delta fails its step, and as many are a ring's last as there are rings.
fn rings_climb(axis: &[u32], layout: Layout) -> bool
    requires { AxisSized axis.now layout.edge_capacity layout.node_capacity layout.counts }
    ensures { result ≡ true → all (ring_test layout.edge_capacity layout.counts.edges.base layout.counts.edges.bound axis.now) (from 0 layout.counts.nodes.bound) ≡ true }
{
    let base = layout.counts.edges.base;
    let bound = layout.counts.edges.bound;
    let ends = layout.counts.nodes.bound;
    let mut lasts = 0;
    for e in base..bound {
        if !edge_climbs(axis, layout, e) {
            return false;
        }
        lasts += rings_ended(axis, layout, e);
    }
    let last_edges = 4 * layout.edge_capacity;
    ring_count(&axis[last_edges..last_edges + ends as usize]) == lasts
}

// Rule 5: the rings of all nodes, removed or not.
pub fn rings_right(axis: &[u32], layout: Layout) -> bool
    requires { AxisSized axis.now layout.edge_capacity layout.node_capacity layout.counts }
    ensures { result ≡ all (ring_test layout.edge_capacity layout.counts.edges.base layout.counts.edges.bound axis.now) (from 0 layout.counts.nodes.bound) }
{
    rings_climb(axis, layout) || (0..layout.counts.nodes.bound).all(|x| ring_right(axis, layout, x))
}
