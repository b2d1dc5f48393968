// The run of one node: a chain of edges with first, last and length, and a mark that the node has it. Port of relocate/runs.rs. All functions are internal. What a
// call asks and promises of the words is a record of specs/Runs.antt. Chains are of edge numbers, not of boxes, since the memory is lent and fixed.

#![tactic(auto)]

pub mod overlay;

ghost use Rattle.std.specs.Prelude.{◌*◌, ◌≡◌, [], ◌∷◌};
ghost use Rattle.liveness.specs.Flags.{live_flags};
ghost use Rattle.shape.specs.Columns.{cell};
ghost use Rattle.shape.specs.Chains.{chain};
ghost use Rattle.shape.specs.Steps.{live_entries};
ghost use Rattle.runs.specs.Runs.{Grown, Pushable, Keepable, Scannable, Divided, Shortenable, Shortened, Appendable, Appended, Sweepable, Swept, before_in, Found, Searchable, Unlinkable, Cuttable, TakenOut};

use liveness::is_live;
use shape::Layout;

// Appends an edge that is in no run to the run of a node.
pub fn push(axis: &mut [u32], layout: Layout, node: usize, entry: u32)
    requires { Pushable axis.old layout.edge_capacity layout.node_capacity layout.counts node entry }
    ensures { Grown axis.old axis.new layout.edge_capacity layout.node_capacity layout.counts node (entry ∷ []) }
{
    let lasts = 4 * layout.edge_capacity;
    let first = lasts + layout.node_capacity + node;
    let tail = lasts + 2 * layout.node_capacity + node;
    let count = lasts + 3 * layout.node_capacity + node;
    let length = axis[count];
    let last = axis[tail];
    axis[count] = length + 1;
    axis[tail] = entry;
    if length == 0 {
        axis[first] = entry;
        return;
    }
    axis[3 * layout.edge_capacity + last as usize] = entry;
}

// Appends an edge to the run of a node where it is live.
pub fn keep_one(axis: &mut [u32], layout: Layout, node: usize, live: &[u64], entry: u32)
    requires { Keepable axis.old layout.edge_capacity layout.node_capacity layout.counts node live.now entry }
    ensures { Grown axis.old axis.new layout.edge_capacity layout.node_capacity layout.counts node (live_entries (live_flags live.now layout.counts.edges.bound) (entry ∷ [])) }
{
    let bound = layout.counts.edges.bound as usize;
    let slot = entry as usize;
    if is_live(live, bound, slot) {
        push(axis, layout, node, entry);
    }
}

// A run, divided before its first dead entry: `length` entries in front of it, which are live, `last` the last of these, and `left` entries from `next` on. Where
// there is none in front, `last` says nothing.
#[derive(Clone, Copy)]
pub struct Front {
    pub length: u32,
    pub last: u32,
    pub next: u32,
    pub left: u32,
}

// Reads the run of a node up to its first dead entry. Where none is dead there is nothing to divide.
fn live_front(axis: &[u32], layout: Layout, node: usize, live: &[u64]) -> Option<Front>
    requires { Scannable axis.now layout.edge_capacity layout.node_capacity layout.counts node live.now }
    ensures { Divided axis.now layout.edge_capacity layout.node_capacity layout.counts node live.now result }
{
    let bound = layout.counts.edges.bound as usize;
    let length = axis[4 * layout.edge_capacity + 3 * layout.node_capacity + node];
    let first = axis[4 * layout.edge_capacity + layout.node_capacity + node];
    let mut last = first;
    let mut next = first;
    for read in 0..length {
        let slot = next as usize;
        if !is_live(live, bound, slot) {
            return Some(Front {
                length: read,
                last,
                next,
                left: length - read,
            });
        }
        last = next;
        next = axis[3 * layout.edge_capacity + slot];
    }
    None
}

// Makes the run of a node end after its first `length` entries, of which `last` is the last.
fn shorten(axis: &mut [u32], layout: Layout, node: usize, last: u32, length: u32)
    requires { Shortenable axis.old layout.edge_capacity layout.node_capacity layout.counts node last length }
    ensures { Shortened axis.old axis.new layout.edge_capacity layout.node_capacity layout.counts node length }
{
    let lasts = 4 * layout.edge_capacity;
    axis[lasts + 2 * layout.node_capacity + node] = last;
    axis[lasts + 3 * layout.node_capacity + node] = length;
}

// Appends to the run of a node the live ones of `length` edges that are chained from `first` on and are in no run.
fn append_live(axis: &mut [u32], layout: Layout, node: usize, live: &[u64], first: u32, length: u32)
    requires { Appendable axis.old layout.edge_capacity layout.node_capacity layout.counts node live.now first length }
    ensures { Appended axis.old axis.new layout.edge_capacity layout.node_capacity layout.counts node live.now first length }
{
    let mut next = first;
    for _ in 0..length {
        let entry = next;
        next = axis[3 * layout.edge_capacity + entry as usize];
        keep_one(axis, layout, node, live, entry);
    }
}

// Takes the dead edges out of the run of a node. Where no edge is removed the run is not read; else it is read once, and written from its first dead entry on.
// `tombstoned` says whether some edge is removed. It is told, here and in what is above, and not taken out of the layout's counts, since a contract may not ask more of a
// caller than before: that the counts tell of the bits.
pub fn sweep(axis: &mut [u32], layout: Layout, node: usize, live: &[u64], tombstoned: bool)
    requires { Sweepable axis.old layout.edge_capacity layout.node_capacity layout.counts node live.now tombstoned }
    ensures { Swept axis.old axis.new layout.edge_capacity layout.node_capacity layout.counts node live.now }
{
    if !tombstoned {
        return;
    }
    let Some(front) = live_front(axis, layout, node, live) else {
        return;
    };
    shorten(axis, layout, node, front.last, front.length);
    append_live(axis, layout, node, live, front.next, front.left);
}

// The entry that stands before `entry` in the chain of `length` entries from `first` on, None where there is none.
fn find_before(axis: &[u32], layout: Layout, first: u32, length: u32, entry: u32) -> Option<u32>
    requires { Searchable axis.now layout.edge_capacity first length }
    ensures { Found (before_in entry (chain (cell axis.now (3 * layout.edge_capacity)) length first)) result }
{
    let mut before = first;
    for _ in 1..length {
        let next = axis[3 * layout.edge_capacity + before as usize];
        if next == entry {
            return Some(before);
        }
        before = next;
    }
    None
}

// Takes the edge that stands after `before` in the run of a node out of it.
fn unlink(axis: &mut [u32], layout: Layout, node: usize, before: u32, entry: u32)
    requires { Unlinkable axis.old layout.edge_capacity layout.node_capacity layout.counts node before entry }
    ensures { TakenOut axis.old axis.new layout.edge_capacity layout.node_capacity layout.counts node entry }
{
    let links = 3 * layout.edge_capacity;
    let lasts = 4 * layout.edge_capacity;
    let tail = lasts + 2 * layout.node_capacity + node;
    let count = lasts + 3 * layout.node_capacity + node;
    let at = links + before as usize;
    let after = links + entry as usize;
    axis[count] = axis[count] - 1;
    axis[at] = axis[after];
    if axis[tail] == entry {
        axis[tail] = before;
    }
}

// Takes an edge out of the run of a node, where it is there.
pub fn take_out(axis: &mut [u32], layout: Layout, node: usize, entry: u32)
    requires { Cuttable axis.old layout.edge_capacity layout.node_capacity layout.counts node }
    ensures { TakenOut axis.old axis.new layout.edge_capacity layout.node_capacity layout.counts node entry }
{
    let lasts = 4 * layout.edge_capacity;
    let head = lasts + layout.node_capacity + node;
    let count = lasts + 3 * layout.node_capacity + node;
    let length = axis[count];
    let first = axis[head];
    if length == 0 {
        return;
    }
    if first == entry {
        let after = 3 * layout.edge_capacity + first as usize;
        axis[count] = length - 1;
        axis[head] = axis[after];
        return;
    }
    if let Some(before) = find_before(axis, layout, first, length, entry) {
        unlink(axis, layout, node, before, entry);
    }
}
