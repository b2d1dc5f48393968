// The operations of a strip on a checked store, each with document 01's refusals in their order. All functions are internal: the strip has checked the store.

#![tactic(auto)]

ghost use Rattle.std.specs.Prelude.{◌≤◌, ◌<◌, ◌≡◌, cond, MatchResult};
ghost use Rattle.plain.specs.Answers.{answer_of};
ghost use Rattle.plain.specs.declared.refusals.Refusal.TheVariants.{Inverted};
ghost use Rattle.plain.specs.declared.Operation.TheVariants.{AddNode, AddEdge, RemoveEdge, RemoveNode, Redirect, Move, SetPayload};
ghost use Rattle.shape.specs.Checked.{Checked};
ghost use Rattle.shape.specs.Stores.{words_mut, SameSlices};
ghost use Rattle.refusals.specs.Step.{StepOf};

use adjacency::reads;
use plain::refusals::Refusal;
use plain::{EdgePayload, TraversalDirection};
use shape::StoreMut;

// "It refuses with 16 .. for a low above its high."
fn ordered(payload: EdgePayload) -> Result<(), Refusal>
    ensures { MatchResult result (λ _. payload.low ≤ payload.high) (λ refusal. (payload.high < payload.low) × (refusal ≡ Inverted)) }
{
    if payload.low <= payload.high {
        Ok(())
    } else {
        Err(Refusal::Inverted)
    }
}

// "Add node: 4, 10."
pub fn add_node(store: &mut StoreMut, payload: u32) -> Result<u32, Refusal>
    requires { Checked (words_mut store.old) }
    ensures same { SameSlices store.old store.new }
    ensures steps { StepOf (AddNode payload) (words_mut store.old) (words_mut store.new) (answer_of result).number (answer_of result).value }
{
    let slot = store.counts.nodes.bound;
    if store.nodes.len() <= slot as usize {
        return Err(Refusal::Full);
    }
    store::add_node(store, payload);
    Ok(slot)
}

// "Add edge: 4, source 5, 6, target 5, 6, then 10", with 16 "directly after 4".
pub fn add_edge(
    store: &mut StoreMut,
    source: u32,
    target: u32,
    payload: EdgePayload,
) -> Result<u32, Refusal>
    requires { Checked (words_mut store.old) }
    ensures same { SameSlices store.old store.new }
    ensures steps { StepOf (AddEdge source target payload) (words_mut store.old) (words_mut store.new) (answer_of result).number (answer_of result).value }
{
    ordered(payload)?;
    let read = store.as_store();
    read.live_node(source)?;
    read.live_node(target)?;
    let slot = store.counts.edges.bound;
    if store.lows.len() <= slot as usize {
        return Err(Refusal::Full);
    }
    store::add_edge(store, source, target, payload);
    Ok(slot)
}

// "Removals: 4." Whether something live was there.
pub fn remove_edge(store: &mut StoreMut, edge: u32) -> bool
    requires { Checked (words_mut store.old) }
    ensures same { SameSlices store.old store.new }
    ensures steps { StepOf (RemoveEdge edge) (words_mut store.old) (words_mut store.new) 0 (cond result 1 0) }
{
    store::remove_edge(store, edge)
}

// "Removals: 4." The edges of both walks go with the node.
pub fn remove_node(store: &mut StoreMut, node: u32) -> bool
    requires { Checked (words_mut store.old) }
    ensures same { SameSlices store.old store.new }
    ensures steps { StepOf (RemoveNode node) (words_mut store.old) (words_mut store.new) 0 (cond result 1 0) }
{
    store::remove_node(store, node)
}

// "Redirect: 4, 7, 8, 5, 6."
pub fn redirect(
    store: &mut StoreMut,
    direction: TraversalDirection,
    edge: u32,
    node: u32,
) -> Result<u32, Refusal>
    requires { Checked (words_mut store.old) }
    ensures same { SameSlices store.old store.new }
    ensures steps { StepOf (Redirect direction edge node) (words_mut store.old) (words_mut store.new) (answer_of result).number (answer_of result).value }
{
    let read = store.as_store();
    read.live_edge(edge)?;
    read.live_node(node)?;
    Ok(store::redirect(store, direction, edge, node))
}

// "Move: 4, 9, old 5; an empty walk is done, value 0; then new 5, 6."
pub fn move_adjacency(
    store: &mut StoreMut,
    direction: TraversalDirection,
    old: u32,
    new: u32,
) -> Result<u32, Refusal>
    requires { Checked (words_mut store.old) }
    ensures same { SameSlices store.old store.new }
    ensures steps { StepOf (Move direction old new) (words_mut store.old) (words_mut store.new) (answer_of result).number (answer_of result).value }
{
    if old == new {
        return Err(Refusal::OntoItself);
    }
    let read = store.as_store();
    read.known_node(old)?;
    if reads::degree(&read, direction, old) == 0 {
        return Ok(0);
    }
    read.live_node(new)?;
    Ok(store::move_adjacency(store, direction, old, new))
}

// "Set payload: 4, 7", with 16 "directly after 4".
pub fn set_payload(store: &mut StoreMut, edge: u32, payload: EdgePayload) -> Result<u32, Refusal>
    requires { Checked (words_mut store.old) }
    ensures same { SameSlices store.old store.new }
    ensures steps { StepOf (SetPayload edge payload) (words_mut store.old) (words_mut store.new) (answer_of result).number (answer_of result).value }
{
    ordered(payload)?;
    store.as_store().known_edge(edge)?;
    store::set_payload(store, edge, payload);
    Ok(0)
}
