// Finding an edge from one node to another: along the first node's out-list, to the first entry that ends at the second. "1, first 5, second 5."

ghost use Rattle.std.specs.Prelude.{IfOk};
ghost use Rattle.plain.specs.Answers.{found_of};
ghost use Rattle.plain.specs.Plain.{list_of};
ghost use Rattle.plain.specs.declared.TraversalDirection.TheVariants.{Outgoing};
ghost use Rattle.plain.specs.Reads.{find as find_of};
ghost use Rattle.shape.specs.Shape.{lists};
ghost use Rattle.shape.specs.Stores.{words};
ghost use Rattle.cursor.specs.Finding.{Among};
ghost use Rattle.view.specs.Calls.{Answered};

use crate::check_node;
use adjacency::walk;
use plain::TraversalDirection;
use plain::refusals::Refusal;
use shape::Store;

// The first edge of `first`'s out-list that ends at `second`, if there is one.
pub fn find(store: &Store, first: u32, second: u32) -> Result<Option<u32>, Refusal>
    ensures answered { Answered (words store.now) (λ w. find_of (lists w) first second) (found_of result) }
    ensures among { IfOk result (λ found. Among found (list_of Outgoing (lists (words store.now)) first)) }
{
    check_node(store, first)?;
    store.known_node(second)?;
    let edge = walk::find(
        store.incidence(TraversalDirection::Outgoing),
        store.incoming,
        first as usize,
        store.is_node_live(first),
        second,
    );
    Ok(edge)
}
