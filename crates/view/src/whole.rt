// Public reads of the whole store: bounds, counts, whether it is empty. "The check, the yes or no reads of a store, bounds and counts: 1."
// Those of nodes and of edges differ in the field that they read, in one line each: a generic one would take the field as a parameter and be no shorter.

ghost use Rattle.plain.specs.Answers.{answer_of, yes_no_of};
ghost use Rattle.plain.specs.Reads.{node_bound_answer, edge_bound_answer, node_count, edge_count, is_empty};
ghost use Rattle.shape.specs.Shape.{lists};
ghost use Rattle.shape.specs.Stores.{words};
ghost use Rattle.view.specs.Calls.{Answered};

use plain::refusals::Refusal;
use shape::Store;
use validate::judging::check_store;

// How many node slots there are, removed ones too.
pub fn node_bound(store: &Store) -> Result<u32, Refusal>
    ensures { Answered (words store.now) (λ w. node_bound_answer (lists w)) (answer_of result) }
{
    check_store(store)?;
    Ok(store.counts.nodes.bound)
}

// How many edge slots there are, removed ones too.
pub fn edge_bound(store: &Store) -> Result<u32, Refusal>
    ensures { Answered (words store.now) (λ w. edge_bound_answer (lists w)) (answer_of result) }
{
    check_store(store)?;
    Ok(store.counts.edges.bound)
}

// How many nodes are live.
pub fn node_count(store: &Store) -> Result<u32, Refusal>
    ensures { Answered (words store.now) (λ w. node_count (lists w)) (answer_of result) }
{
    check_store(store)?;
    Ok(store.counts.nodes.live)
}

// How many edges are live.
pub fn edge_count(store: &Store) -> Result<u32, Refusal>
    ensures { Answered (words store.now) (λ w. edge_count (lists w)) (answer_of result) }
{
    check_store(store)?;
    Ok(store.counts.edges.live)
}

// Whether no node is live.
pub fn is_empty(store: &Store) -> Result<bool, Refusal>
    ensures { Answered (words store.now) (λ w. is_empty (lists w)) (yes_no_of result) }
{
    check_store(store)?;
    Ok(store.counts.nodes.live == 0)
}
