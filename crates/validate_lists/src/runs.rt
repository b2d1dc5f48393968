// Rule 6 for one direction: the runs. Every entry is marked as it is passed, so that the first that is out of range or comes twice ends the check, whatever length
// a run says that it has: runs that pass cost a step an entry. The quick test of crate `validate` follows them by the same loop, with the rings of their nodes, and
// there each entry has to end at its node.

ghost use Rattle.std.specs.Prelude.{◌*◌, ◌≤◌, ◌<◌, ◌≡◌, true, length};
ghost use Rattle.liveness.specs.Flags.{live_flags};
ghost use Rattle.shape.specs.Columns.{cell, end_at, tail_at, mark_at};
ghost use Rattle.shape.specs.Chains.{chain, until};
ghost use Rattle.shape.specs.Shape.{run_list};
ghost use Rattle.shape.specs.Rules.{runs_right as runs_test};
ghost use Rattle.marks.specs.Marks.{Passed, Followed, Adds};
ghost use Rattle.validate_lists.specs.Runs.{entry_test, run_test, ends_in, PassReadable, ChainReadable, RunReadable, RunsReadable, MapClear, taken, NodeOnce, RunsOnce};

use liveness::is_live;
use marks::{WORDS, mark};
use plain::NONE;
use shape::Incidence;

// Whether an entry of a node's list is right: it is below the bound, not live where the node is removed, ends at the node where `OWN` asks for that, as rule 7 does and
// rule 6 does not, and is not marked yet. Marks it.
#[tactic(auto, unfolding(crate::specs::Runs::entry_test))]
fn pass<const OWN: bool>(
    side: &Incidence,
    live: bool,
    node: usize,
    edge: u32,
    seen: &mut [u64],
) -> bool
    requires { PassReadable side.now.axis.now side.now.live_edges.now side.now.layout.counts.edges.bound seen.old }
    ensures passed { Passed (run_test side.now.axis.now OWN node side.now.layout.counts.edges.bound live (live_flags side.now.live_edges.now side.now.layout.counts.edges.bound) edge) seen.old edge result seen.new }
    ensures below { result ≡ true → edge < side.now.layout.counts.edges.bound }
{
    let bound = side.layout.counts.edges.bound;
    edge < bound
        && (live || !is_live(side.live_edges, bound as usize, edge as usize))
        && (!OWN || side.axis[edge as usize] as usize == node)
        && mark(seen, edge as usize)
}

// The chain of `count` entries from `first` on, of a node whose live flag is `live`: right entries, the last being `tail`. Marks them.
fn chain_right<const OWN: bool>(
    side: &Incidence,
    live: bool,
    node: usize,
    first: u32,
    count: u32,
    tail: u32,
    seen: &mut [u64],
) -> bool
    requires { ChainReadable side.now.axis.now side.now.layout.edge_capacity side.now.live_edges.now side.now.layout.counts.edges.bound seen.old }
    ensures { Followed (run_test side.now.axis.now OWN node side.now.layout.counts.edges.bound live (live_flags side.now.live_edges.now side.now.layout.counts.edges.bound)) (ends_in (chain (cell side.now.axis.now (3 * side.now.layout.edge_capacity)) count first) tail) (chain (cell side.now.axis.now (3 * side.now.layout.edge_capacity)) count first) seen.old result seen.new }
{
    let mut last = tail;
    let mut e = first;
    for _ in 0..count {
        if !pass::<OWN>(side, live, node, e, seen) {
            return false;
        }
        last = e;
        e = side.axis[3 * side.layout.edge_capacity + e as usize];
    }
    last == tail
}

// The run of a node that has one, and whose live flag is `live`.
fn run_right<const OWN: bool>(side: &Incidence, node: usize, live: bool, seen: &mut [u64]) -> bool
    requires { RunReadable side.now.axis.now side.now.layout.edge_capacity side.now.layout.node_capacity side.now.live_edges.now side.now.layout.counts.edges.bound node seen.old × (mark_at side.now.axis.now side.now.layout.edge_capacity side.now.layout.node_capacity node ≡ 0 → ⊥) }
    ensures { Followed (run_test side.now.axis.now OWN node side.now.layout.counts.edges.bound live (live_flags side.now.live_edges.now side.now.layout.counts.edges.bound)) (ends_in (run_list side.now.axis.now side.now.layout.edge_capacity side.now.layout.node_capacity node) (tail_at side.now.axis.now side.now.layout.edge_capacity side.now.layout.node_capacity node)) (run_list side.now.axis.now side.now.layout.edge_capacity side.now.layout.node_capacity node) seen.old result seen.new }
{
    let first = side.axis[4 * side.layout.edge_capacity + side.layout.node_capacity + node];
    let tail = side.axis[4 * side.layout.edge_capacity + 2 * side.layout.node_capacity + node];
    let count = side.axis[4 * side.layout.edge_capacity + 3 * side.layout.node_capacity + node];
    chain_right::<OWN>(side, live, node, first, count, tail, seen)
}

// The run of a node by rule 6, right where it has none. Marks the entries.
fn node_right(side: &Incidence, node: usize, live: bool, seen: &mut [u64]) -> bool
    requires { RunReadable side.now.axis.now side.now.layout.edge_capacity side.now.layout.node_capacity side.now.live_edges.now side.now.layout.counts.edges.bound node seen.old }
    ensures { Followed (entry_test side.now.layout.counts.edges.bound live (live_flags side.now.live_edges.now side.now.layout.counts.edges.bound)) (ends_in (run_list side.now.axis.now side.now.layout.edge_capacity side.now.layout.node_capacity node) (tail_at side.now.axis.now side.now.layout.edge_capacity side.now.layout.node_capacity node)) (run_list side.now.axis.now side.now.layout.edge_capacity side.now.layout.node_capacity node) seen.old result seen.new }
{
    side.axis[4 * side.layout.edge_capacity + 4 * side.layout.node_capacity + node] == 0
        || run_right::<false>(side, node, live, seen)
}

// The ring of a node from its first entry on up to its last, `count` entries at most: each ends at the node and none is marked. Marks them.
fn ring_once(
    side: &Incidence,
    live: bool,
    node: usize,
    first: u32,
    count: u32,
    last: u32,
    seen: &mut [u64],
) -> bool
    requires { ChainReadable side.now.axis.now side.now.layout.edge_capacity side.now.live_edges.now side.now.layout.counts.edges.bound seen.old }
    ensures { Followed (run_test side.now.axis.now true node side.now.layout.counts.edges.bound live (live_flags side.now.live_edges.now side.now.layout.counts.edges.bound)) true (until (cell side.now.axis.now (2 * side.now.layout.edge_capacity)) last count first) seen.old result seen.new }
{
    let mut e = first;
    for _ in 0..count {
        if !pass::<true>(side, live, node, e, seen) {
            return false;
        }
        if e == last {
            return true;
        }
        e = side.axis[2 * side.layout.edge_capacity + e as usize];
    }
    true
}

// The run of a node and the ring behind it, right where it has no run: every entry of both ends at the node, and none is marked; only the yes is promised. Marks the
// entries.
fn node_once(side: &Incidence, node: usize, live: bool, seen: &mut [u64]) -> bool
    requires { RunReadable side.now.axis.now side.now.layout.edge_capacity side.now.layout.node_capacity side.now.live_edges.now side.now.layout.counts.edges.bound node seen.old × (side.now.layout.counts.edges.base ≤ side.now.layout.counts.edges.bound) }
    ensures { result ≡ true → NodeOnce side.now.axis.now side.now.layout.edge_capacity side.now.layout.node_capacity side.now.layout.counts.edges.base side.now.layout.counts.edges.bound node × Adds (taken side.now.axis.now side.now.layout.edge_capacity side.now.layout.node_capacity side.now.layout.counts.edges.base side.now.layout.counts.edges.bound node) seen.old seen.new }
{
    if side.axis[4 * side.layout.edge_capacity + 4 * side.layout.node_capacity + node] == 0 {
        return true;
    }
    if !run_right::<true>(side, node, live, seen) {
        return false;
    }
    // Not by adjacency::rings::ring_ends, which asks that the last be an edge: that is what is tested here.
    let last = side.axis[4 * side.layout.edge_capacity + node];
    if last == NONE {
        return true;
    }
    if last >= side.layout.counts.edges.bound {
        return false;
    }
    let first = side.axis[2 * side.layout.edge_capacity + last as usize];
    ring_once(
        side,
        live,
        node,
        first,
        side.layout.counts.edges.bound - side.layout.counts.edges.base,
        last,
        seen,
    )
}

// The runs and rings of all nodes that have a run, on a clear map: only the yes is promised. Kept apart from the passes that follow it, which want the registers.
#[inline(never)]
pub fn runs_once(side: &Incidence, seen: &mut [u64]) -> bool
    requires { RunsReadable side.now.axis.now side.now.layout.edge_capacity side.now.layout.node_capacity side.now.layout.counts side.now.live_nodes.now side.now.live_edges.now × MapClear seen.old }
    ensures { result ≡ true → RunsOnce side.now.axis.now side.now.layout.edge_capacity side.now.layout.node_capacity side.now.layout.counts seen.new }
{
    let node_bound = side.layout.counts.nodes.bound as usize;
    // No `all`: tried here, and the proof did not close, since what a closure has answered is not known where it also marks; the same below and in walks.rt.
    for x in 0..node_bound {
        let live = is_live(side.live_nodes, node_bound, x);
        if !node_once(side, x, live, seen) {
            return false;
        }
    }
    true
}

// Rule 6: the runs of all nodes, removed or not.
pub fn runs_right(side: &Incidence) -> bool
    requires { RunsReadable side.now.axis.now side.now.layout.edge_capacity side.now.layout.node_capacity side.now.layout.counts side.now.live_nodes.now side.now.live_edges.now }
    ensures { result ≡ runs_test side.now.layout.edge_capacity side.now.layout.node_capacity side.now.layout.counts (live_flags side.now.live_nodes.now side.now.layout.counts.nodes.bound) (live_flags side.now.live_edges.now side.now.layout.counts.edges.bound) side.now.axis.now }
{
    let node_bound = side.layout.counts.nodes.bound as usize;
    let mut seen = [0u64; WORDS];
    for x in 0..node_bound {
        let live = is_live(side.live_nodes, node_bound, x);
        if !node_right(side, x, live, &mut seen) {
            return false;
        }
    }
    true
}
