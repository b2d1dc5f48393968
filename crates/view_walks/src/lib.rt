// Public reads of a node's list: degree, total, walk, and the far ends of a walk (successors or predecessors). "Walk: 1, 5, 2." "Degree and node payload: 1, 5."
// "A total refuses 1, then 5".

#![tactic(auto)]

pub mod finding;

ghost use Rattle.plain.specs.Answers.{answer_of, sums_total_of};
ghost use Rattle.plain.specs.Reads.{degree as degree_of, total as total_of, walk as walk_of, neighbors as neighbors_of};
ghost use Rattle.shape.specs.Shape.{lists};
ghost use Rattle.shape.specs.Stores.{words};
ghost use Rattle.view.specs.Calls.{Answered, Totalled, Replied};
ghost use Rattle.view_walks.specs.Walks.{Placed, Counted};

use adjacency::reads;
use memory::need;
use plain::refusals::Refusal;
use plain::{Sums, TraversalDirection};
use shape::Store;
use validate::judging::check_store;

// What every read of a node's list refuses first: 1, 5. Internal.
fn check_node(store: &Store, node: u32) -> Result<(), Refusal>
    ensures { Placed (words store.now) node result }
{
    check_store(store)?;
    store.known_node(node)
}

// How many entries a node's list has, where `room` words are lent for them: 1, 5, 2. Internal: it writes nothing.
fn count_list(
    store: &Store,
    direction: TraversalDirection,
    node: u32,
    room: usize,
) -> Result<usize, Refusal>
    ensures { Counted (words store.now) direction node room result }
{
    check_node(store, node)?;
    let entries = reads::degree(store, direction, node);
    need(entries, room)?;
    Ok(entries)
}

// How many edges a node's list has.
pub fn degree(store: &Store, direction: TraversalDirection, node: u32) -> Result<usize, Refusal>
    ensures { Answered (words store.now) (λ w. degree_of direction (lists w) node) (answer_of result) }
{
    check_node(store, node)?;
    Ok(reads::degree(store, direction, node))
}

// The total of a node's list: the sum of the lowest weights and the sum of the highest.
pub fn total(store: &Store, direction: TraversalDirection, node: u32) -> Result<Sums, Refusal>
    ensures { Totalled (words store.now) (λ w. total_of direction (lists w) node) (sums_total_of result) }
{
    check_node(store, node)?;
    Ok(reads::total(store, direction, node))
}

// A node's list into `slots`.
pub fn walk(
    store: &Store,
    direction: TraversalDirection,
    node: u32,
    slots: &mut [u32],
) -> Result<usize, Refusal>
    ensures { Replied (words store.now) (λ w room. walk_of direction (lists w) node room) slots.old (answer_of result) slots.new }
{
    let entries = count_list(store, direction, node, slots.len())?;
    reads::edges(store, direction, node).write(slots);
    Ok(entries)
}

// The far ends of a node's list into `slots`: successors, or predecessors.
pub fn neighbors(
    store: &Store,
    direction: TraversalDirection,
    node: u32,
    slots: &mut [u32],
) -> Result<usize, Refusal>
    ensures { Replied (words store.now) (λ w room. neighbors_of direction (lists w) node room) slots.old (answer_of result) slots.new }
{
    let entries = count_list(store, direction, node, slots.len())?;
    reads::edges(store, direction, node).write_ends(store.axis(direction.opposite()), slots);
    Ok(entries)
}
