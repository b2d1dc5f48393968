// Public reads of a slot: payloads, records and whether it is live. The check comes first.

ghost use Rattle.std.specs.Prelude.{◌≡◌};
ghost use Rattle.plain.specs.Answers.{answer_of, edge_record_of, yes_no_of};
ghost use Rattle.plain.specs.Reads.{node_payload, edge_record, live_edge_record, contains_node, contains_edge};
ghost use Rattle.shape.specs.Shape.{lists};
ghost use Rattle.shape.specs.Stores.{words};
ghost use Rattle.view.specs.Calls.{Answered, Recorded};

use plain::EdgeRecord;
use plain::refusals::Refusal;
use shape::Store;
use validate::judging::check_store;

// The payload of a node slot, also of a removed one. "Degree and node payload: 1, 5."
pub fn node_payload(store: &Store, node: u32) -> Result<u32, Refusal>
    ensures { Answered (words store.now) (λ w. node_payload (lists w) node) (answer_of result) }
{
    check_store(store)?;
    store.known_node(node)?;
    Ok(store.nodes[node as usize])
}

// The record of an edge slot, also of a removed one: source, target and payload. "Record 1, 7."
pub fn edge_record(store: &Store, edge: u32) -> Result<EdgeRecord, Refusal>
    ensures { Recorded (words store.now) (λ w. edge_record (lists w) edge) (edge_record_of result) }
{
    check_store(store)?;
    store.known_edge(edge)?;
    Ok(store.edge_at(edge as usize))
}

// The record of a live edge. "Live record 1, 7, 8."
pub fn live_edge_record(store: &Store, edge: u32) -> Result<EdgeRecord, Refusal>
    ensures { Recorded (words store.now) (λ w. live_edge_record (lists w) edge) (edge_record_of result) }
{
    check_store(store)?;
    store.live_edge(edge)?;
    Ok(store.edge_at(edge as usize))
}

// Whether a node slot is live; one at or above the bound is not. That of an edge reads other words by the store's own method, so that nothing is left to share.
pub fn contains_node(store: &Store, node: u32) -> Result<bool, Refusal>
    ensures { Answered (words store.now) (λ w. contains_node (lists w) node) (yes_no_of result) }
{
    check_store(store)?;
    Ok(store.is_node_live(node))
}

// Whether an edge slot is live; one at or above the bound is not.
pub fn contains_edge(store: &Store, edge: u32) -> Result<bool, Refusal>
    ensures { Answered (words store.now) (λ w. contains_edge (lists w) edge) (yes_no_of result) }
{
    check_store(store)?;
    Ok(store.is_edge_live(edge))
}
