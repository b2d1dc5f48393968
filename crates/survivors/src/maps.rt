// Both maps of a store, or of a book that is joined. All functions are internal.

ghost use Rattle.survivors.specs.Maps.{MapsFit, MapsWritten, SameMaps};

use crate::slots::write_map;
use shape::Store;

// The slices lent for the maps of a store: the new numbers of its nodes, and those of its edges.
#[derive(Drop)]
pub struct MapsMut<'a> {
    pub nodes: &'a mut [u32],
    pub edges: &'a mut [u32],
}

// Both maps of a store, its live slots numbered from `first_node` and `first_edge` on.
pub fn write_maps(store: &Store, first_node: u32, first_edge: u32, maps: &mut MapsMut)
    requires { MapsFit store.now.counts store.now.live_nodes.now store.now.live_edges.now first_node first_edge maps.old.nodes.now maps.old.edges.now }
    ensures written { MapsWritten store.now.counts store.now.live_nodes.now store.now.live_edges.now first_node first_edge
        maps.old.nodes.now maps.old.edges.now maps.new.nodes.now maps.new.edges.now }
    ensures same { SameMaps maps.old maps.new }
{
    let counts = store.counts;
    write_map(
        store.live_nodes,
        counts.nodes.bound as usize,
        first_node,
        maps.nodes,
    );
    write_map(
        store.live_edges,
        counts.edges.bound as usize,
        first_edge,
        maps.edges,
    );
}
