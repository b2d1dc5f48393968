// Rule 7 for one direction: the walks, on a store that the rules before it have passed. Every entry is marked as it is passed, so that a walk that lists an edge
// twice, or one that does not end at its node, ends the check; the live edges that no walk has listed are those that are not marked in the end. Where the quick
// test of crate validate has told that the walks are right, `walks_right` is not called.

ghost use Rattle.std.specs.Prelude.{ℕ, ◌*◌, ◌≤◌, ◌<◌, ◌≡◌, true, length, get_or, eqb};
ghost use Rattle.plain.specs.Lists.{all, from};
ghost use Rattle.liveness.specs.Flags.{live_flags};
ghost use Rattle.shape.specs.Columns.{end_at};
ghost use Rattle.adjacency.specs.Walk.{side_walk};
ghost use Rattle.marks.specs.Marks.{Passed, Followed};
ghost use Rattle.validate_lists.specs.Walks.{ListReadable, WalkReadable, WalksReadable, Within, marked_if_live, walks_test};

use adjacency::walk;
use cursor::edges::AdjacentEdges;
use liveness::is_live;
use marks::{WORDS, mark};
use shape::Incidence;

// An edge of a walk ends at the node, by the column `ends`, and is not marked yet. Marks it.
fn pass(ends: &[u32], node: u32, edge: u32, seen: &mut [u64]) -> bool
    requires { (edge < length ends.now) × (edge < 64 * length seen.old) }
    ensures { Passed (eqb (end_at ends.now edge) node) seen.old edge result seen.new }
{
    ends[edge as usize] == node && mark(seen, edge as usize)
}

// The edges of a walk: each ends at the node, by the column `ends`, and none is marked. Marks them. It goes along the entries, as whatever reads a whole walk does:
// a search for each listed edge is dearer (cursor::edges).
fn list_right(edges: AdjacentEdges, ends: &[u32], node: u32, seen: &mut [u64]) -> bool
    requires { ListReadable edges ends.now seen.old }
    ensures { Followed (λ e. eqb (end_at ends.now e) node) true edges.entry seen.old result seen.new }
{
    let (entries, listed) = edges.parts();
    for edge in entries {
        if listed.has(edge) && !pass(ends, node, edge, seen) {
            return false;
        }
    }
    true
}

// The walk of one node, whose live flag is `live`.
fn walk_right(side: &Incidence, node: u32, live: bool, seen: &mut [u64]) -> bool
    requires { WalkReadable side.now.axis.now side.now.layout.edge_capacity side.now.layout.node_capacity side.now.layout.counts side.now.live_edges.now node seen.old }
    ensures { Followed (λ e. eqb (end_at side.now.axis.now e) node) true (side_walk side.now node live) seen.old result seen.new }
{
    let edges = walk::edges(*side, node as usize, live);
    list_right(edges, side.axis, node, seen)
}

// A slot is marked if it is live.
#[tactic(auto, unfolding(crate::specs::Walks::marked_if_live))]
fn marked_if_live(words: &[u64], seen: &[u64], slots: usize, slot: usize) -> bool
    requires { (slots ≤ 64 * length words.now) × (slots ≤ 64 * length seen.now) }
    ensures { result ≡ marked_if_live (live_flags words.now slots) (live_flags seen.now slots) slot }
{
    !is_live(words, slots, slot) || is_live(seen, slots, slot)
}

// Whether the bits of the words of one map are set in those of another; only the yes is promised.
#[tactic(auto, using(crate::proofs::Within::within_and))]
fn words_within(words: &[u64], seen: &[u64]) -> bool
    requires { length words.now ≡ length seen.now }
    ensures { result ≡ true → (i : ℕ) → i < length words.now → Within (get_or words.now i 0) (get_or seen.now i 0) }
{
    words
        .iter()
        .zip(seen)
        .all(|(word, marks)| word & marks == *word)
}

// Every live slot is marked. In a store that passes a word of live bits is within its word of marks; only where one is not is each slot looked at.
pub fn live_marked(words: &[u64], seen: &[u64], slots: usize) -> bool
    requires { (slots ≤ 64 * length words.now) × (slots ≤ 64 * length seen.now) }
    ensures { result ≡ all (marked_if_live (live_flags words.now slots) (live_flags seen.now slots)) (from 0 slots) }
{
    let count = slots.div_ceil(64);
    words_within(&words[..count], &seen[..count])
        || (0..slots).all(|e| marked_if_live(words, seen, slots, e))
}

// Rule 7: the walks of all nodes list each live edge once, at its end, and nothing else.
pub fn walks_right(side: &Incidence) -> bool
    requires { WalksReadable side.now.axis.now side.now.layout.edge_capacity side.now.layout.node_capacity side.now.layout.counts side.now.live_nodes.now side.now.live_edges.now }
    ensures { result ≡ walks_test side.now.axis.now side.now.layout.edge_capacity side.now.layout.node_capacity side.now.layout.counts side.now.live_nodes.now side.now.live_edges.now }
{
    let node_bound = side.layout.counts.nodes.bound;
    let mut seen = [0u64; WORDS];
    // No `all`, for the reason at runs::runs_once.
    for x in 0..node_bound {
        let live = is_live(side.live_nodes, node_bound as usize, x as usize);
        if !walk_right(side, x, live, &mut seen) {
            return false;
        }
    }
    live_marked(
        side.live_edges,
        &seen,
        side.layout.counts.edges.bound as usize,
    )
}
