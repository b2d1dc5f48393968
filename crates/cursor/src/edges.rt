// The listed edges of a walk, as an iterator: its entries without those that are removed (`AdjacentEdges` of the Rust).

ghost use Rattle.std.specs.Prelude.{ℕ, ◌≡◌, List};
ghost use Rattle.std.specs.Iterator.{YieldsFirst, item_count};
ghost use Rattle.plain.specs.Lists.{keep};
ghost use Rattle.cursor.specs.Cursor.{listed_by};

use crate::entries::Entries;
use crate::listed::Listed;
use std::marker::Model;

// The listed edges that are left, seen as their list.
#[derive(Drop)]
pub struct AdjacentEdges<'a> {
    pub(crate) entries: Entries<'a>,
    pub(crate) listed: Listed<'a>,
}

impl<'a> Model for AdjacentEdges<'a> {
    ghost Value = { List ℕ };

    ghost view = { λ s. keep (listed_by s.listed) s.entries };
}

impl<'a> Entries<'a> {
    // Those of them that are listed.
    pub fn listed(self, listed: Listed<'a>) -> AdjacentEdges<'a>
        ensures { result ≡ keep (listed_by listed.entry) self.entry }
    {
        AdjacentEdges {
            entries: self,
            listed,
        }
    }
}

impl<'a> AdjacentEdges<'a> {
    // The entries that are left and which of them are listed, for a loop over a whole walk: it steps for itself, in place of a search for each listed edge.
    pub fn parts(self) -> (Entries<'a>, Listed<'a>)
        ensures { keep (listed_by result.1) result.0 ≡ self.entry }
    {
        (self.entries, self.listed)
    }
}

impl<'a> Iterator for AdjacentEdges<'a> {
    type Item = u32;

    ghost next_gives = { YieldsFirst (λ rest. rest) };

    ghost remaining = { item_count (λ rest. rest) };

    #[inline]
    fn next(&mut self) -> Option<u32> {
        let listed = self.listed;
        self.entries.find(|edge| listed.has(*edge))
    }
}
