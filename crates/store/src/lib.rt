// The store: operations on a checked store. Port of store.rs. All functions are internal: they require a checked store, by its name in crate `shape`, and what an
// operation's refusals leave, and update the store and its counts. What they promise is a record of specs/Operations.antt.

#![tactic(auto)]

ghost use Rattle.std.specs.Prelude.{◌<◌, ◌^◌, ◌≡◌, length, set};
ghost use Rattle.plain.specs.declared.Operation.TheVariants.{AddNode, AddEdge, SetPayload};
ghost use Rattle.shape.specs.Checked.{Checked};
ghost use Rattle.shape.specs.Stores.{words_mut, SameSlices};
ghost use Rattle.store.specs.Operations.{Acted, RemovedEdge, RemovedNode, RedirectedEdge, MovedEdges, NodeAddable, EdgeAddable, EdgeRedirectable, EdgesMovable, PayloadSettable};

use adjacency::{clear, rings, walk};
use liveness;
use plain::{EdgePayload, TraversalDirection};
use relocate::{moves, redirects};
use shape::StoreMut;

// Sets the weights of the edge slot at a place.
fn set_weights(lows: &mut [u32], highs: &mut [u32], at: usize, payload: EdgePayload)
    requires { (at < length lows.old) × (at < length highs.old) }
    ensures lows { lows.new ≡ set lows.old at payload.low }
    ensures highs { highs.new ≡ set highs.old at payload.high }
    ensures fits { payload.high < 2 ^ 32 }
{
    let EdgePayload { low, high } = payload;
    lows[at] = low;
    highs[at] = high;
}

// Adds a node: the slot is the bound, which rises by one.
pub fn add_node(store: &mut StoreMut, payload: u32)
    requires { NodeAddable (words_mut store.old) }
    ensures same { SameSlices store.old store.new }
    ensures acted { Acted (AddNode payload) (words_mut store.old) (words_mut store.new) }
{
    let slot = store.counts.nodes.bound as usize;
    let layout = store.layout();
    store.nodes[slot] = payload;
    liveness::push_live(store.live_nodes, slot);
    rings::open_node(store.outgoing, layout, slot);
    rings::open_node(store.incoming, layout, slot);
    store.counts.nodes.bound += 1;
    store.counts.nodes.live += 1;
}

// Adds an edge: the slot is the bound, which rises by one; the edge is appended to its source's out-list and its target's in-list.
pub fn add_edge(store: &mut StoreMut, source: u32, target: u32, payload: EdgePayload)
    requires { EdgeAddable (words_mut store.old) source target payload }
    ensures same { SameSlices store.old store.new }
    ensures acted { Acted (AddEdge source target payload) (words_mut store.old) (words_mut store.new) }
{
    let slot = store.counts.edges.bound;
    let at = slot as usize;
    let layout = store.layout();
    set_weights(store.lows, store.highs, at, payload);
    liveness::push_live(store.live_edges, at);
    rings::append(store.outgoing, layout, source as usize, slot);
    rings::append(store.incoming, layout, target as usize, slot);
    store.counts.edges.bound += 1;
    store.counts.edges.live += 1;
}

// Removes an edge, and answers whether it was live. No list is edited.
pub fn remove_edge(store: &mut StoreMut, edge: u32) -> bool
    requires { Checked (words_mut store.old) }
    ensures same { SameSlices store.old store.new }
    ensures removed { RemovedEdge edge (words_mut store.old) result (words_mut store.new) }
{
    let slots = store.counts.edges.bound as usize;
    if !liveness::clear(store.live_edges, slots, edge as usize) {
        return false;
    }
    store.counts.edges.live -= 1;
    true
}

// Removes a node with the edges of both its walks, and answers whether it was live. A self-loop stands in both walks and is counted once, since the first clearing leaves
// it dead. No list is edited.
pub fn remove_node(store: &mut StoreMut, node: u32) -> bool
    requires { Checked (words_mut store.old) }
    ensures same { SameSlices store.old store.new }
    ensures removed { RemovedNode node (words_mut store.old) result (words_mut store.new) }
{
    let slots = store.counts.nodes.bound as usize;
    let at = node as usize;
    if !liveness::clear(store.live_nodes, slots, at) {
        return false;
    }
    let layout = store.layout();
    let live_edges = &mut *store.live_edges;
    let outgoing = &mut *store.outgoing;
    let incoming = &mut *store.incoming;
    let out = clear::clear_adjacency(outgoing, layout, live_edges, at);
    let back = clear::clear_adjacency(incoming, layout, live_edges, at);
    store.counts.nodes.live -= 1;
    store.counts.edges.live -= out + back;
    true
}

// Redirects a live edge to a live node on one axis, and answers its end before. The same end changes nothing. In each direction a call of its own: a `&mut` that is one of two,
// by the direction, gets no proof.
pub fn redirect(store: &mut StoreMut, direction: TraversalDirection, edge: u32, node: u32) -> u32
    requires { EdgeRedirectable (words_mut store.old) edge node }
    ensures same { SameSlices store.old store.new }
    ensures redirected { RedirectedEdge direction edge node (words_mut store.old) result (words_mut store.new) }
{
    let layout = store.layout();
    let some_removed = walk::tombstoned(layout.counts);
    match direction {
        TraversalDirection::Outgoing => {
            let axis = &mut *store.outgoing;
            let live_edges = &mut *store.live_edges;
            redirects::redirect(axis, layout, live_edges, some_removed, edge, node)
        }
        TraversalDirection::Incoming => {
            let axis = &mut *store.incoming;
            let live_edges = &mut *store.live_edges;
            redirects::redirect(axis, layout, live_edges, some_removed, edge, node)
        }
    }
}

// Moves the edges of a node's walk, of which there are some, to another live node on one axis, and answers how many. In each direction a call of its own, as in redirect.
pub fn move_adjacency(
    store: &mut StoreMut,
    direction: TraversalDirection,
    old: u32,
    new: u32,
) -> u32
    requires { EdgesMovable direction (words_mut store.old) old new }
    ensures same { SameSlices store.old store.new }
    ensures moved { MovedEdges direction old new (words_mut store.old) result (words_mut store.new) }
{
    let layout = store.layout();
    let some_removed = walk::tombstoned(layout.counts);
    match direction {
        TraversalDirection::Outgoing => {
            let axis = &mut *store.outgoing;
            let live_edges = &mut *store.live_edges;
            moves::move_adjacency(axis, layout, live_edges, some_removed, old, new)
        }
        TraversalDirection::Incoming => {
            let axis = &mut *store.incoming;
            let live_edges = &mut *store.live_edges;
            moves::move_adjacency(axis, layout, live_edges, some_removed, old, new)
        }
    }
}

// Sets the payload of an edge, also of a removed one. The counts stay.
pub fn set_payload(store: &mut StoreMut, edge: u32, payload: EdgePayload)
    requires { PayloadSettable (words_mut store.old) edge payload }
    ensures same { SameSlices store.old store.new }
    ensures acted { Acted (SetPayload edge payload) (words_mut store.old) (words_mut store.new) }
{
    set_weights(store.lows, store.highs, edge as usize, payload);
}
