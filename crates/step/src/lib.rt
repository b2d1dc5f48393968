// One operation of a strip on a checked store: the function of its case. Internal: the strip has checked the store.

#![tactic(auto)]

ghost use Rattle.plain.specs.Answers.{answer_of};
ghost use Rattle.shape.specs.Checked.{Checked};
ghost use Rattle.shape.specs.Stores.{words_mut, SameSlices};
ghost use Rattle.refusals.specs.Step.{StepOf};

use plain::Operation;
use plain::refusals::Refusal;
use shape::StoreMut;

// One operation: its value, or why it is refused. A removal's is "1 or 0 for a yes or no".
pub fn step(store: &mut StoreMut, operation: Operation) -> Result<u32, Refusal>
    requires { Checked (words_mut store.old) }
    ensures same { SameSlices store.old store.new }
    ensures steps { StepOf operation (words_mut store.old) (words_mut store.new) (answer_of result).number (answer_of result).value }
{
    match operation {
        Operation::AddNode { payload } => refusals::add_node(store, payload),
        Operation::AddEdge {
            source,
            target,
            payload,
        } => refusals::add_edge(store, source, target, payload),
        Operation::RemoveEdge { edge } => Ok(u32::from(refusals::remove_edge(store, edge))),
        Operation::RemoveNode { node } => Ok(u32::from(refusals::remove_node(store, node))),
        Operation::Redirect {
            direction,
            edge,
            node,
        } => refusals::redirect(store, direction, edge, node),
        Operation::Move {
            direction,
            old,
            new,
        } => refusals::move_adjacency(store, direction, old, new),
        Operation::SetPayload { edge, payload } => refusals::set_payload(store, edge, payload),
        Operation::Unknown => Err(Refusal::UnknownCode),
    }
}
