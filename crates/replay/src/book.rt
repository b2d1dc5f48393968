// The memory that recorded calls are made on.

ghost use Rattle.std.specs.Prelude.{◌≡◌};
ghost use Rattle.shape.specs.Stores.{words, words_mut};
ghost use Rattle.replay.specs.Books.{book_words};

use crate::print::within;
use plain::Counts;
use shape::{Store, StoreMut};

// A store, its recorded capacities, and memory for every store that is recorded, in fixed arrays, as there is no heap: what a call is lent is cut at the capacities.
#[derive(Clone, Copy)]
pub struct Book {
    pub counts: Counts,
    pub node_capacity: u32,
    pub edge_capacity: u32,
    pub nodes: [u32; 512],
    pub lows: [u32; 1024],
    pub highs: [u32; 1024],
    pub live_nodes: [u64; 8],
    pub live_edges: [u64; 16],
    pub outgoing: [u32; 7169],
    pub incoming: [u32; 7169],
}

impl Book {
    // No slot, and no capacity.
    pub fn new() -> Book
        ensures { (result.counts.nodes.bound ≡ 0) × (result.counts.edges.bound ≡ 0) }
    {
        Book {
            counts: Counts::default(),
            node_capacity: 0,
            edge_capacity: 0,
            nodes: [0; 512],
            lows: [0; 1024],
            highs: [0; 1024],
            live_nodes: [0; 8],
            live_edges: [0; 16],
            outgoing: [0; 7169],
            incoming: [0; 7169],
        }
    }

    // The store, to be read.
    pub fn store(&self) -> Store<'_>
        ensures { words result ≡ book_words self.now }
    {
        let n = within(self.node_capacity, &self.nodes);
        let e = within(self.edge_capacity, &self.lows);
        Store {
            counts: self.counts,
            nodes: &self.nodes[..n],
            lows: &self.lows[..e],
            highs: &self.highs,
            live_nodes: &self.live_nodes,
            live_edges: &self.live_edges,
            outgoing: &self.outgoing,
            incoming: &self.incoming,
        }
    }

    // The store, to be written. Its counts afterwards are put back by the caller.
    pub fn store_mut(&mut self) -> StoreMut<'_>
        ensures { words_mut result ≡ book_words self.old }
    {
        let n = within(self.node_capacity, &self.nodes);
        let e = within(self.edge_capacity, &self.lows);
        let counts = self.counts;
        let nodes = self.nodes.as_mut_slice();
        let lows = self.lows.as_mut_slice();
        StoreMut {
            counts,
            nodes: &mut nodes[..n],
            lows: &mut lows[..e],
            highs: self.highs.as_mut_slice(),
            live_nodes: self.live_nodes.as_mut_slice(),
            live_edges: self.live_edges.as_mut_slice(),
            outgoing: self.outgoing.as_mut_slice(),
            incoming: self.incoming.as_mut_slice(),
        }
    }
}
