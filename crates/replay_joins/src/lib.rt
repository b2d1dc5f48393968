// A recorded join: of the store with itself.

#![tactic(auto)]

use join::MapsMut;
use plain::Counts;
use replay::print::{print_written, within};
use shape::{Store, StoreMut};
use std::io;

// The image of what is in the joined memory.
fn print_joined(rt: &impl Print, memory: &StoreMut) -> io::Result<()> {
    let mut work: [u32; 4096] = [0; 4096];
    let mut bytes: [u8; 32768] = [0; 32768];
    replay_reads::print_image(rt, &memory.as_store(), &mut work, &mut bytes)
}

// The store joined with itself in a memory with room for any two that are recorded; where it is done, the four maps and the image of what is there.
pub fn join_with_itself(rt: &impl Print, store: &Store, maps: u32) -> io::Result<()> {
    let mut all_nodes: [u32; 1024] = [7; 1024];
    let mut all_lows: [u32; 2048] = [7; 2048];
    let mut all_highs: [u32; 2048] = [7; 2048];
    let mut all_live_nodes: [u64; 16] = [7; 16];
    let mut all_live_edges: [u64; 32] = [7; 32];
    let mut all_outgoing: [u32; 14337] = [7; 14337];
    let mut all_incoming: [u32; 14337] = [7; 14337];
    let mut first_node_map: [u32; 2048] = [0; 2048];
    let mut first_edge_map: [u32; 2048] = [0; 2048];
    let mut second_node_map: [u32; 2048] = [0; 2048];
    let mut second_edge_map: [u32; 2048] = [0; 2048];
    let room = within(maps, &first_node_map);
    let mut memory = StoreMut {
        counts: Counts::default(),
        nodes: &mut all_nodes,
        lows: &mut all_lows,
        highs: &mut all_highs,
        live_nodes: &mut all_live_nodes,
        live_edges: &mut all_live_edges,
        outgoing: &mut all_outgoing,
        incoming: &mut all_incoming,
    };
    let mut first_maps = MapsMut {
        nodes: &mut first_node_map[..room],
        edges: &mut first_edge_map[..room],
    };
    let mut second_maps = MapsMut {
        nodes: &mut second_node_map[..room],
        edges: &mut second_edge_map[..room],
    };
    let second = *store;
    let joined = join::join(
        store,
        &second,
        &mut memory,
        &mut first_maps,
        &mut second_maps,
    );
    print_written(rt, joined, &first_node_map[..room])?;
    print_written(rt, joined, &first_edge_map[..room])?;
    print_written(rt, joined, &second_node_map[..room])?;
    print_written(rt, joined, &second_edge_map[..room])?;
    if joined.is_ok() {
        print_joined(rt, &memory)?;
    }
    Ok(())
}
