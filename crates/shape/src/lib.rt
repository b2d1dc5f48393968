// The store's memory: its counts and the seven slices that a caller lends, as one value, shared or to be written, and the same memory read as lists. The definitions stand in
// specs/, where every crate that touches the words cites them, their laws in proofs/Laws.

#![tactic(auto)]

ghost use Rattle.std.specs.Prelude.{◌*◌, ◌<◌, ◌≤◌, ◌≡◌, false, length, get_or, MatchResult};
ghost use Rattle.plain.specs.declared.refusals.Refusal.TheVariants.{OutOfRangeNode, RemovedNode, OutOfRangeEdge, RemovedEdge};
ghost use Rattle.memory.specs.Lengths.{measured};
ghost use Rattle.shape.specs.Shape.{axis_words, edge_live, lengths_of, node_live};
ghost use Rattle.shape.specs.Stores.{words, words_mut, layout_of, edge_of, slot_refused, EdgeThere};

use liveness::is_live;
use memory::Lengths;
use plain::refusals::Refusal;
use plain::{Counts, EdgePayload, EdgeRecord, TraversalDirection};

// How an axis is laid out: by the capacities where its columns begin, and by the counts how much of each is in use. What works on the words of one axis is given it beside
// them, by value, since the words are lent now to be read and now to be written. Its columns have no methods: tried, and each access needed a proof of its own; specs/Columns
// says where each column begins. A clause names its fields, so that the records of specs/ keep their arguments.
#[derive(Clone, Copy)]
pub struct Layout {
    pub edge_capacity: usize,
    pub node_capacity: usize,
    pub counts: Counts,
}

// One direction of a store, to be read: the words of its axis with their layout, and the live words of both kinds of slot.
#[derive(Clone, Copy)]
pub struct Incidence<'a> {
    pub axis: &'a [u32],
    pub layout: Layout,
    pub live_nodes: &'a [u64],
    pub live_edges: &'a [u64],
}

// A store to be read: its counts and the seven slices that are lent. Lows and highs are two slices and not one of pairs, since the C interface lends them apart.
#[derive(Clone, Copy)]
pub struct Store<'a> {
    pub counts: Counts,
    pub nodes: &'a [u32],
    pub lows: &'a [u32],
    pub highs: &'a [u32],
    pub live_nodes: &'a [u64],
    pub live_edges: &'a [u64],
    pub outgoing: &'a [u32],
    pub incoming: &'a [u32],
}

impl<'a> Store<'a> {
    // The words of one direction.
    pub fn axis(&self, direction: TraversalDirection) -> &'a [u32]
        ensures { result.now ≡ axis_words direction (words self.now) }
    {
        match direction {
            TraversalDirection::Outgoing => self.outgoing,
            TraversalDirection::Incoming => self.incoming,
        }
    }

    // The layout of both its axes: "the low one's length is the capacity".
    pub fn layout(&self) -> Layout
        ensures { result ≡ layout_of (words self.now) }
    {
        Layout {
            edge_capacity: self.lows.len(),
            node_capacity: self.nodes.len(),
            counts: self.counts,
        }
    }

    // One direction.
    pub fn incidence(&self, direction: TraversalDirection) -> Incidence<'a>
        ensures axis { result.axis.now ≡ axis_words direction (words self.now) }
        ensures layout { result.layout ≡ layout_of (words self.now) }
        ensures live_nodes { result.live_nodes.now ≡ self.now.live_nodes.now }
        ensures live_edges { result.live_edges.now ≡ self.now.live_edges.now }
    {
        Incidence {
            axis: self.axis(direction),
            layout: self.layout(),
            live_nodes: self.live_nodes,
            live_edges: self.live_edges,
        }
    }

    // The record of an edge slot, also of a removed one.
    pub fn edge_at(&self, edge: usize) -> EdgeRecord
        requires { EdgeThere (words self.now) edge }
        ensures { result ≡ edge_of (words self.now) edge }
    {
        EdgeRecord {
            source: self.outgoing[edge],
            target: self.incoming[edge],
            payload: EdgePayload {
                low: self.lows[edge],
                high: self.highs[edge],
            },
        }
    }

    // The lengths of its slices.
    pub fn lengths(&self) -> Lengths
        ensures { measured result ≡ lengths_of (words self.now) }
    {
        Lengths {
            nodes: self.nodes.len(),
            lows: self.lows.len(),
            highs: self.highs.len(),
            live_nodes: self.live_nodes.len(),
            live_edges: self.live_edges.len(),
            outgoing: self.outgoing.len(),
            incoming: self.incoming.len(),
        }
    }

    // Whether a node is live; one out of range is not.
    pub fn is_node_live(&self, node: u32) -> bool
        requires { self.now.counts.nodes.bound ≤ 64 * length self.now.live_nodes.now }
        ensures { result ≡ get_or (node_live (words self.now)) node false }
    {
        is_live(
            self.live_nodes,
            self.counts.nodes.bound as usize,
            node as usize,
        )
    }

    // Whether an edge is live; one out of range is not.
    pub fn is_edge_live(&self, edge: u32) -> bool
        requires { self.now.counts.edges.bound ≤ 64 * length self.now.live_edges.now }
        ensures { result ≡ get_or (edge_live (words self.now)) edge false }
    {
        is_live(
            self.live_edges,
            self.counts.edges.bound as usize,
            edge as usize,
        )
    }

    // Refuses a node at or above the bound.
    pub fn known_node(&self, node: u32) -> Result<(), Refusal>
        ensures { MatchResult result (λ _. node < self.now.counts.nodes.bound) (λ refusal. (self.now.counts.nodes.bound ≤ node) × (refusal ≡ OutOfRangeNode)) }
    {
        if node < self.counts.nodes.bound {
            Ok(())
        } else {
            Err(Refusal::OutOfRangeNode)
        }
    }

    // Refuses an edge at or above the bound.
    pub fn known_edge(&self, edge: u32) -> Result<(), Refusal>
        ensures { MatchResult result (λ _. edge < self.now.counts.edges.bound) (λ refusal. (self.now.counts.edges.bound ≤ edge) × (refusal ≡ OutOfRangeEdge)) }
    {
        if edge < self.counts.edges.bound {
            Ok(())
        } else {
            Err(Refusal::OutOfRangeEdge)
        }
    }

    // Refuses a node at or above the bound, and one that is removed. What is told of nodes and of edges differs in the words, the bound and two refusals: one function of both
    // would take all four, and be longer than either.
    #[tactic(auto, unfolding(crate::specs::Stores::slot_refused))]
    pub fn live_node(&self, node: u32) -> Result<(), Refusal>
        requires { self.now.counts.nodes.bound ≤ 64 * length self.now.live_nodes.now }
        ensures { result ≡ slot_refused OutOfRangeNode RemovedNode (node_live (words self.now)) self.now.counts.nodes.bound node }
    {
        if self.counts.nodes.bound <= node {
            return Err(Refusal::OutOfRangeNode);
        }
        if self.is_node_live(node) {
            Ok(())
        } else {
            Err(Refusal::RemovedNode)
        }
    }

    // Refuses an edge at or above the bound, and one that is removed.
    #[tactic(auto, unfolding(crate::specs::Stores::slot_refused))]
    pub fn live_edge(&self, edge: u32) -> Result<(), Refusal>
        requires { self.now.counts.edges.bound ≤ 64 * length self.now.live_edges.now }
        ensures { result ≡ slot_refused OutOfRangeEdge RemovedEdge (edge_live (words self.now)) self.now.counts.edges.bound edge }
    {
        if self.counts.edges.bound <= edge {
            return Err(Refusal::OutOfRangeEdge);
        }
        if self.is_edge_live(edge) {
            Ok(())
        } else {
            Err(Refusal::RemovedEdge)
        }
    }
}

// A store to be written. Its slices are all lent alike: what a function leaves alone its promise says.
#[derive(Drop)]
pub struct StoreMut<'a> {
    pub counts: Counts,
    pub nodes: &'a mut [u32],
    pub lows: &'a mut [u32],
    pub highs: &'a mut [u32],
    pub live_nodes: &'a mut [u64],
    pub live_edges: &'a mut [u64],
    pub outgoing: &'a mut [u32],
    pub incoming: &'a mut [u32],
}

impl StoreMut<'_> {
    // The same store, to be read.
    pub fn as_store(&self) -> Store<'_>
        ensures { words result ≡ words_mut self.now }
    {
        Store {
            counts: self.counts,
            nodes: self.nodes,
            lows: self.lows,
            highs: self.highs,
            live_nodes: self.live_nodes,
            live_edges: self.live_edges,
            outgoing: self.outgoing,
            incoming: self.incoming,
        }
    }

    // The layout of both its axes.
    pub fn layout(&self) -> Layout
        ensures { result ≡ layout_of (words_mut self.now) }
    {
        self.as_store().layout()
    }
}
