// The way forward once the words of the lots are distances: from lot to lot by the first transfer of the out-list that leads one nearer. All functions are
// internal: the search has found the first lot. Each out-list on the way is looked at once.

ghost use Rattle.std.specs.Prelude.{◌≡◌, unwrap_or};
ghost use Rattle.plain.specs.Lists.{written};
ghost use Rattle.plain.specs.Numbers.{NONE as none};
ghost use Rattle.plain.specs.Plain.{list_of};
ghost use Rattle.plain.specs.declared.TraversalDirection.TheVariants.{Outgoing};
ghost use Rattle.shape.specs.Columns.{end_at};
ghost use Rattle.shape.specs.Shape.{lists};
ghost use Rattle.shape.specs.Stores.{words};
ghost use Rattle.cursor.specs.Finding.{first_of};
ghost use Rattle.nearest.specs.Forwards.{leads, NearerLot, Forward, way_in};

use adjacency::reads;
use plain::TraversalDirection;
use shape::Store;

// The first edge of a lot's out-list that leads to a lot with this word: along the entries, and not by `find` over the listed edges (cursor::edges says why).
fn nearer_lot(store: &Store, lot: u32, work: &[u32], word: u32) -> Option<u32>
    requires { NearerLot (words store.now) lot work.now }
    ensures { let w = words store.now in unwrap_or result none ≡ first_of (leads (end_at w.incoming) work.now word) (list_of Outgoing (lists w) lot) }
{
    let (entries, listed) = reads::edges(store, TraversalDirection::Outgoing, lot).parts();
    for edge in entries {
        if listed.has(edge) && work[store.incoming[edge as usize] as usize] == word {
            return Some(edge);
        }
    }
    None
}

// Writes the way forward from a lot to the start of `chain`: `left` edges, each the first of its out-list that leads one nearer.
pub fn write_way(store: &Store, work: &[u32], goal: u32, left: usize, from: u32, chain: &mut [u32])
    requires { Forward (words store.now) work.now goal left from chain.old }
    ensures { chain.new ≡ written (way_in (words store.now) work.now left from) chain.old }
{
    let mut lot = from;
    for i in 0..left {
        let edge = nearer_lot(store, lot, work, (left - i) as u32).unwrap();
        chain[i] = edge;
        lot = store.incoming[edge as usize];
    }
}
