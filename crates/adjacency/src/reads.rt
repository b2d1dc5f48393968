// A node's list, its degree and its total, by the plain lists of a checked store (crate `plain`, Reads.antt).

ghost use Rattle.std.specs.Prelude.{◌<◌, ◌≡◌, length};
ghost use Rattle.plain.specs.Plain.{list_of};
ghost use Rattle.shape.specs.Checked.{Checked};
ghost use Rattle.shape.specs.Shape.{lists};
ghost use Rattle.shape.specs.Stores.{words};
ghost use Rattle.adjacency.specs.Reads.{sums_in};

use crate::walk;
use cursor::edges::AdjacentEdges;
use plain::{Sums, TraversalDirection};
use shape::Store;

// A node's list, an edge at a time, of a node slot below the bound.
pub fn edges<'a>(store: &Store<'a>, direction: TraversalDirection, node: u32) -> AdjacentEdges<'a>
    requires checked { Checked (words store.now) }
    requires node_lt_bound { node < store.now.counts.nodes.bound }
    ensures { result ≡ list_of direction (lists (words store.now)) node }
{
    let side = store.incidence(direction);
    walk::edges(side, node as usize, store.is_node_live(node))
}

// How many edges a node's list has, of a node slot below the bound.
pub fn degree(store: &Store, direction: TraversalDirection, node: u32) -> usize
    requires checked { Checked (words store.now) }
    requires node_lt_bound { node < store.now.counts.nodes.bound }
    ensures { result ≡ length (list_of direction (lists (words store.now)) node) }
{
    walk::degree(
        store.incidence(direction),
        node as usize,
        store.is_node_live(node),
    )
}

// The sum of the lows and the sum of the highs of a node's list, of a node slot below the bound.
pub fn total(store: &Store, direction: TraversalDirection, node: u32) -> Sums
    requires checked { Checked (words store.now) }
    requires node_lt_bound { node < store.now.counts.nodes.bound }
    ensures { result ≡ sums_in direction (lists (words store.now)) node }
{
    walk::total(
        store.incidence(direction),
        node as usize,
        store.is_node_live(node),
        store.lows,
        store.highs,
    )
}
