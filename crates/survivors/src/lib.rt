// What survives a compaction: the map from old slots to new ones, the words of the live slots, and the lists of the live nodes by walks. For compaction, joining and
// writing an image. Port of `surviving_slots`, `take_live_nodes`, `remap_endpoint` and `reordered_adjacency`. All functions are internal.

#![tactic(auto)]

pub mod lists;
pub mod maps;
pub mod slots;
