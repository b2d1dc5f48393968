// A walk over one node's adjacency, as a value: a cursor of four numbers, stepped over two columns of an axis. It reads the base part or
// the run, whichever the node has, and then the ring.

#![tactic(auto)]

ghost use Rattle.std.specs.Prelude.{◌<◌, ◌≤◌, ◌≡◌, false, length};
ghost use Rattle.plain.specs.Numbers.{NONE as none};
ghost use Rattle.cursor.specs.Cursor.{part_count, exhausted as exhausted_cursor, ring_left, base_at, step_of, ring_step, listed_by, Ready};

pub mod edges;
pub mod entries;
pub mod listed;
mod reading;

use entries::Entries;
use listed::Listed;
use plain::NONE;
// What a total answers.
pub use plain::Sums;

// Where a walk stands. Of a base part `base` and `base_end` are positions in the adjacency column. Of a run `base` is the entry to read next
// and `base_end` how many are left. `delta` is the ring's entry to read next, NONE where none is left, and `delta_last` the ring's last.
#[repr(C)]
#[derive(Clone, Copy)]
pub struct AdjacencyCursor {
    pub base: u32,
    pub base_end: u32,
    pub delta: u32,
    pub delta_last: u32,
}

// Where a walk starts, and whether it reads a run. It stands beside the cursor, and not in an enum of both kinds of part: the scope of the build names a cursor of
// four numbers.
#[repr(C)]
#[derive(Clone, Copy)]
pub struct Start {
    pub linked: bool,
    pub cursor: AdjacencyCursor,
}

impl Listed<'_> {
    // Whether an edge is listed.
    #[inline]
    pub fn has(&self, edge: u32) -> bool
        ensures { result ≡ listed_by self.now edge }
    {
        !self.tombstoned || liveness::is_live(self.live, self.slots, edge as usize)
    }
}

impl AdjacencyCursor {
    // A walk with nothing left, over any columns: a constant of the type and a constructor beside it, the form that the scope of the build names.
    pub const EXHAUSTED: AdjacencyCursor = AdjacencyCursor {
        base: 0,
        base_end: 0,
        delta: NONE,
        delta_last: NONE,
    };

    pub fn exhausted() -> Self
        ensures { result ≡ exhausted_cursor }
    {
        AdjacencyCursor::EXHAUSTED
    }

    // How many entries of the run or base part are left, in constant time.
    pub fn part_count(self, linked: bool) -> usize
        requires { linked ≡ false → self.base ≤ self.base_end }
        ensures { result ≡ part_count linked self.base self.base_end }
    {
        if linked {
            return self.base_end as usize;
        }
        (self.base_end - self.base) as usize
    }

    // How many entries of the ring are left, each of which is read.
    pub fn ring_count(self, next: &[u32]) -> usize
        requires { Ready false next.now next.now (base_at self 0 0) }
        ensures { result ≡ length (ring_left next.now self.delta self.delta_last) }
    {
        let ring = AdjacencyCursor {
            base: 0,
            base_end: 0,
            ..self
        };
        Entries::of(ring, false, next, next).count()
    }

    // The next entry of the ring, and the cursor behind it. NONE is the ring's end: the scope of the build names a cursor of four numbers.
    #[inline]
    fn step_ring(self, next: &[u32]) -> (Option<u32>, Self)
        requires { (self.delta ≡ none → ⊥) → self.delta < length next.now }
        ensures { result ≡ ring_step next.now self }
    {
        let edge = self.delta;
        if edge == NONE {
            return (None, self);
        }
        let delta = if edge == self.delta_last {
            NONE
        } else {
            next[edge as usize]
        };
        (Some(edge), AdjacencyCursor { delta, ..self })
    }

    // The next entry, dead or not, and the cursor behind it. Linked: the node has a run, and `entries` is the link column. Not linked: `entries` is the
    // adjacency column. `linked` goes beside the columns: which of them is lent follows from it, and the cursor has no room for it.
    #[inline]
    #[tactic(auto, unfolding(crate::specs::Cursor::step_of), using(crate::specs::Laws::Stepping::ring_within, crate::specs::Laws::Stepping::base_within, crate::specs::Laws::Stepping::run_within))]
    pub fn step(self, linked: bool, entries: &[u32], next: &[u32]) -> (Option<u32>, Self)
        requires { Ready linked entries.now next.now self }
        ensures { result ≡ step_of linked entries.now next.now self }
    {
        let base = self.base;
        if linked {
            if self.base_end == 0 {
                return self.step_ring(next);
            }
            let behind = AdjacencyCursor {
                base: entries[base as usize],
                base_end: self.base_end - 1,
                ..self
            };
            return (Some(base), behind);
        }
        if self.base_end <= base {
            return self.step_ring(next);
        }
        let behind = AdjacencyCursor {
            base: base + 1,
            ..self
        };
        (Some(entries[base as usize]), behind)
    }

    // Moves the lent cursor behind the next entry, and answers that: the lent form stands over the step by value, as the scope of the build names both.
    #[inline]
    pub fn advance(&mut self, linked: bool, entries: &[u32], next: &[u32]) -> Option<u32>
        requires { Ready linked entries.now next.now self.old }
        ensures { (result, self.new) ≡ step_of linked entries.now next.now self.old }
    {
        let (edge, behind) = self.step(linked, entries, next);
        *self = behind;
        edge
    }
}
