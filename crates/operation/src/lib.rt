// An operation of a strip from its words: "the code of an operation, 1 to 9", and the words that have to be 0.

#![tactic(auto)]

ghost use Rattle.std.specs.Prelude.{◌≡◌, slice_index};
ghost use Rattle.plain.specs.Operations.{decoded};

use plain::{EdgePayload, OPERATION_WORDS, Operation, TraversalDirection};

// The operation that five words of a strip stand for, by the code first. What they do not is `Unknown` and no None: an operation of its own in the definition of a strip,
// which is answered too. It is no `From`: the impl would have to stand in crate plain, since both types are plain's or the language's.
#[tactic(auto, unfolding(plain::specs::Operations::decoded, plain::specs::Operations::unused))]
pub fn decode(words: [u32; OPERATION_WORDS]) -> Operation
    ensures { result ≡ decoded (slice_index words 0) (slice_index words 1) (slice_index words 2) (slice_index words 3) (slice_index words 4) }
{
    match words {
        [1, 0, 0, payload, 0] => Operation::AddNode { payload },
        [2, source, target, low, high] => Operation::AddEdge {
            source,
            target,
            payload: EdgePayload { low, high },
        },
        [3, edge, 0, 0, 0] => Operation::RemoveEdge { edge },
        [4, node, 0, 0, 0] => Operation::RemoveNode { node },
        [5, edge, node, 0, 0] => Operation::Redirect {
            direction: TraversalDirection::Outgoing,
            edge,
            node,
        },
        [6, edge, node, 0, 0] => Operation::Redirect {
            direction: TraversalDirection::Incoming,
            edge,
            node,
        },
        [7, old, new, 0, 0] => Operation::Move {
            direction: TraversalDirection::Outgoing,
            old,
            new,
        },
        [8, old, new, 0, 0] => Operation::Move {
            direction: TraversalDirection::Incoming,
            old,
            new,
        },
        [9, edge, 0, low, high] => Operation::SetPayload {
            edge,
            payload: EdgePayload { low, high },
        },
        _ => Operation::Unknown,
    }
}
