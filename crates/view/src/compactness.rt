// Whether a store is compact: no slot behind the base, none removed, no run. The Rust knows whether any run exists; here the marks are read, once all else holds.

ghost use Rattle.std.specs.Prelude.{◌≡◌, ◌&&◌, eqb};
ghost use Rattle.plain.specs.Answers.{yes_no_of};
ghost use Rattle.plain.specs.Reads.{is_compact as compact_answer};
ghost use Rattle.shape.specs.Checked.{Checked};
ghost use Rattle.shape.specs.Shape.{axis_words, edge_capacity, node_capacity, shape_of, is_compact};
ghost use Rattle.shape.specs.Steps.{state_of};
ghost use Rattle.shape.specs.Stores.{words};
ghost use Rattle.view.specs.Calls.{Answered};
ghost use Rattle.view.specs.Compact.{unmarked};

use plain::refusals::Refusal;
use plain::{Slots, TraversalDirection};
use shape::Store;
use validate::judging::check_store;
use validate_words::axes;

// Whether no node of a checked store has a run in one direction: each mark is 0. Internal.
fn no_runs(store: &Store, direction: TraversalDirection) -> bool
    requires { Checked (words store.now) }
    ensures { let w = words store.now in result ≡ unmarked (axis_words direction w) (edge_capacity w) (node_capacity w) w.counts.nodes.bound }
{
    axes::no_runs(store.axis(direction), store.layout())
}

// Whether all slots of one kind are in the base and live. Internal.
fn all_kept(slots: Slots) -> bool
    ensures { result ≡ (eqb slots.base slots.bound && eqb slots.live slots.bound) }
{
    slots.base == slots.bound && slots.live == slots.bound
}

// Whether a checked store is compact. Internal.
#[tactic(auto, using(crate::proofs::Marks::compact_parts))]
pub fn is_compact_checked(store: &Store) -> bool
    requires { Checked (words store.now) }
    ensures { result ≡ is_compact (shape_of (words store.now)) }
{
    all_kept(store.counts.nodes)
        && all_kept(store.counts.edges)
        && no_runs(store, TraversalDirection::Outgoing)
        && no_runs(store, TraversalDirection::Incoming)
}

// Whether the store is compact.
pub fn is_compact(store: &Store) -> Result<bool, Refusal>
    ensures { Answered (words store.now) (λ w. compact_answer (state_of (shape_of w))) (yes_no_of result) }
{
    check_store(store)?;
    Ok(is_compact_checked(store))
}
