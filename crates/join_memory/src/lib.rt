// The third memory of two joined books: the maps, then both directions by them, then the payloads. Internal: the books have been checked, and there is room.

#![tactic(auto)]

ghost use Rattle.shape.specs.Stores.{SameSlices, words, words_mut};
ghost use Rattle.survivors.specs.Maps.{SameMaps};
ghost use Rattle.join_memory.specs.Settling.{maps_of, cleared, Settleable, Settled};

use join_columns::axis::{Book, join_axis};
use join_columns::slots::{Column, join_slots};
use liveness::reset_all_live;
use plain::{Counts, Slots, TraversalDirection};
use shape::{Store, StoreMut};
use survivors::maps::{MapsMut, write_maps};

// Joins two checked books where there is room: first the maps, then both directions by them, then the payloads; every slot live and in the base.
pub fn settle(
    first: &Store,
    second: &Store,
    memory: &mut StoreMut,
    first_maps: &mut MapsMut,
    second_maps: &mut MapsMut,
)
    requires { Settleable (words first.now) (words second.now) (cleared memory.old) (maps_of first_maps.old second_maps.old) }
    ensures settled { Settled (words first.now) (words second.now) (cleared memory.old) (maps_of first_maps.old second_maps.old)
        (words_mut memory.new) (maps_of first_maps.new second_maps.new) }
    ensures same { SameSlices memory.old memory.new }
    ensures first_same { SameMaps first_maps.old first_maps.new }
    ensures second_same { SameMaps second_maps.old second_maps.new }
{
    let layout = memory.layout();
    let n = first.counts.nodes.live;
    let m = first.counts.edges.live;
    let all_nodes = n + second.counts.nodes.live;
    let all_edges = m + second.counts.edges.live;
    write_maps(first, 0, 0, first_maps);
    write_maps(second, n, m, second_maps);
    let first_book = Book::of(first, first_maps);
    let second_book = Book::of(second, second_maps);
    join_axis(
        memory.outgoing,
        layout,
        TraversalDirection::Outgoing,
        &first_book,
        &second_book,
    );
    join_axis(
        memory.incoming,
        layout,
        TraversalDirection::Incoming,
        &first_book,
        &second_book,
    );
    join_slots(
        memory.nodes,
        &Column {
            slots: first.counts.nodes,
            words: first.nodes,
            live: first.live_nodes,
        },
        &Column {
            slots: second.counts.nodes,
            words: second.nodes,
            live: second.live_nodes,
        },
    );
    join_slots(
        memory.lows,
        &Column {
            slots: first.counts.edges,
            words: first.lows,
            live: first.live_edges,
        },
        &Column {
            slots: second.counts.edges,
            words: second.lows,
            live: second.live_edges,
        },
    );
    join_slots(
        memory.highs,
        &Column {
            slots: first.counts.edges,
            words: first.highs,
            live: first.live_edges,
        },
        &Column {
            slots: second.counts.edges,
            words: second.highs,
            live: second.live_edges,
        },
    );
    reset_all_live(memory.live_nodes, all_nodes as usize);
    reset_all_live(memory.live_edges, all_edges as usize);
    memory.counts = Counts {
        nodes: Slots::all_based(all_nodes),
        edges: Slots::all_based(all_edges),
    };
}
