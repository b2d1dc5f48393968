// The entries of a walk, dead ones included, as an iterator: a cursor with the two columns that it steps over.

ghost use Rattle.std.specs.Prelude.{◌<◌, ◌≡◌, ◌^◌, ℕ, List, length};
ghost use Rattle.std.specs.Iterator.{YieldsFirst, item_count};
ghost use Rattle.cursor.specs.Cursor.{remaining as left, Ready};

use crate::AdjacencyCursor;
use std::marker::Model;

// What a cursor has still to read, seen as the list of those entries.
#[derive(Drop)]
pub struct Entries<'a> {
    cursor: AdjacencyCursor,
    // Whether the node has a run. If so, `entries` is the link column, else the adjacency column.
    linked: bool,
    entries: &'a [u32],
    next: &'a [u32],
}

impl<'a> Model for Entries<'a> {
    ghost Value = { List ℕ };

    ghost view = { λ s. left s.linked s.entries.now s.next.now s.cursor };

    ghost invariant = { λ s. Ready s.linked s.entries.now s.next.now s.cursor };
}

impl<'a> Entries<'a> {
    pub fn of(
        cursor: AdjacencyCursor,
        linked: bool,
        entries: &'a [u32],
        next: &'a [u32],
    ) -> Entries<'a>
        requires { Ready linked entries.now next.now cursor }
        ensures { result ≡ left linked entries.now next.now cursor }
    {
        Entries {
            cursor,
            linked,
            entries,
            next,
        }
    }

    // The same entries, of which there are no more than a number counts.
    pub(crate) fn countable(self) -> Entries<'a>
        ensures same { result ≡ self.entry }
        ensures few { length result < 2 ^ 64 }
    {
        Entries {
            cursor: self.cursor,
            linked: self.linked,
            entries: self.entries,
            next: self.next,
        }
    }
}

impl<'a> Iterator for Entries<'a> {
    type Item = u32;

    ghost next_gives = { YieldsFirst (λ rest. rest) };

    ghost remaining = { item_count (λ rest. rest) };

    #[inline]
    fn next(&mut self) -> Option<u32> {
        self.cursor.advance(self.linked, self.entries, self.next)
    }
}
