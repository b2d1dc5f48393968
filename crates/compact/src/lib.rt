// Compaction: the dead slots are dropped, the live ones numbered from 0 in slot order, and the delta folded back into the compressed base. Port of compact.rs.

#![tactic(auto)]

pub mod base;

ghost use Rattle.std.specs.Prelude.{◌≡◌, length};
ghost use Rattle.plain.specs.Answers.{done_of};
ghost use Rattle.plain.specs.Calls.{short_answer};
ghost use Rattle.plain.specs.Compaction.{adjacency, survivors};
ghost use Rattle.plain.specs.Lists.{written};
ghost use Rattle.plain.specs.Memory.{first_short};
ghost use Rattle.shape.specs.Shape.{lists};
ghost use Rattle.shape.specs.Stores.{SameSlices, words_mut};
ghost use Rattle.survivors.specs.Maps.{SameMaps};
ghost use Rattle.survivors.specs.Working.{Workable};
ghost use Rattle.compact.specs.Settling.{Settleable, Settling, lent_slices};
ghost use Rattle.compact.specs.Calls.{CompactOf};
ghost use Rattle.compact.specs.Dropping.{Droppable, Dropped};

use liveness::reset_all_live;
use memory::need;
use plain::refusals::Refusal;
use plain::{Counts, Slots};
use shape::StoreMut;
use survivors::lists::write_work;
use survivors::maps::{MapsMut, write_maps};
use survivors::slots::{keep_live, keep_weights};
use validate::judging::check_store;

// Drops the dead slots of a store by its maps: the joined lists of both directions go to the work slice, while the old index is there to read; then both directions are
// compacted, the payloads move down, and every slot is live.
fn drop_dead(store: &mut StoreMut, maps: &MapsMut, work: &mut [u32])
    requires workable { Workable (words_mut store.old) maps.now.edges.now work.old }
    requires droppable { Droppable (words_mut store.old) maps.now.nodes.now work.old }
    ensures worked { work.new ≡ written (adjacency (survivors (lists (words_mut store.old)))) work.old }
    ensures dropped { Dropped (words_mut store.old) maps.now.nodes.now work.new (words_mut store.new) }
    ensures same { SameSlices store.old store.new }
{
    write_work(&store.as_store(), maps.edges, work);
    let node_map = &*maps.nodes;
    let layout = store.layout();
    let node_slots = store.counts.nodes;
    let edge_slots = store.counts.edges;
    let n = node_slots.live as usize;
    let m = edge_slots.live as usize;
    let bound = edge_slots.bound as usize;
    let live_nodes = &mut *store.live_nodes;
    let live_edges = &mut *store.live_edges;
    base::compact_axis(
        store.outgoing,
        layout,
        live_edges,
        bound,
        node_map,
        n,
        m,
        work,
    );
    base::compact_axis(
        store.incoming,
        layout,
        live_edges,
        bound,
        node_map,
        n,
        m,
        &work[m..],
    );
    keep_live(store.nodes, live_nodes, node_slots.bound as usize, n);
    keep_weights(store.lows, store.highs, live_edges, bound, m);
    reset_all_live(live_nodes, n);
    reset_all_live(live_edges, m);
    store.counts = Counts {
        nodes: Slots::all_based(node_slots.live),
        edges: Slots::all_based(edge_slots.live),
    };
}

// Compacts a checked store: first the maps, then the store.
fn settle(store: &mut StoreMut, maps: &mut MapsMut, work: &mut [u32])
    requires { Settleable (words_mut store.old) maps.old.nodes.now maps.old.edges.now work.old }
    ensures settled { Settling (words_mut store.old) maps.old.nodes.now maps.old.edges.now work.old
        (words_mut store.new) maps.new.nodes.now maps.new.edges.now work.new }
    ensures same { SameSlices store.old store.new }
    ensures same_maps { SameMaps maps.old maps.new }
{
    write_maps(&store.as_store(), 0, 0, maps);
    drop_dead(store, maps, work);
}

// Refuses lent slices that are too short, "in that order": the node map, the edge map and the work slice, by the counts of a checked store.
#[tactic(auto, unfolding(plain::specs::Memory::first_short))]
fn check_lent(counts: Counts, maps: &MapsMut, work: &[u32]) -> Result<(), Refusal>
    ensures { done_of result ≡ short_answer (first_short (lent_slices counts (length maps.now.nodes.now) (length maps.now.edges.now) (length work.now))) }
{
    need(counts.nodes.bound as usize, maps.nodes.len())?;
    need(counts.edges.bound as usize, maps.edges.len())?;
    need(2 * counts.edges.live as usize, work.len())
}

// Compaction. Refused, nothing is written.
pub fn compact(
    store: &mut StoreMut,
    node_map: &mut [u32],
    edge_map: &mut [u32],
    work: &mut [u32],
) -> Result<(), Refusal>
    ensures compacted { CompactOf (words_mut store.old) node_map.old edge_map.old work.old
        (done_of result).number (done_of result).value
        (words_mut store.new) node_map.new edge_map.new work.new }
    ensures same { SameSlices store.old store.new }
{
    check_store(&store.as_store())?;
    let mut maps = MapsMut {
        nodes: node_map,
        edges: edge_map,
    };
    check_lent(store.counts, &maps, work)?;
    settle(store, &mut maps, work);
    Ok(())
}
