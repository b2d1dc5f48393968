// Two books joined: the survivors of two checked stores, the first's and then the second's, in a third lent memory as a compact store, with the maps of both. Document 02,
// request 6. The Rust has no counterpart.

#![tactic(auto)]

ghost use Rattle.plain.specs.Answers.{done_of};
ghost use Rattle.shape.specs.Stores.{SameSlices, words, words_mut};
ghost use Rattle.survivors.specs.Maps.{SameMaps};
ghost use Rattle.join.specs.Calls.{maps_of, cleared, JoinOf};

use join_columns::answers::check_join;
use join_memory::settle;
use plain::Counts;
use plain::refusals::Refusal;
use shape::{Store, StoreMut};
pub use survivors::maps::MapsMut;
use validate::judging::check_store;

// Joins two books: "It refuses with 1 for the first book, 1 for the second, 13 for the third memory (lots before transfers), 2 for its other slices, 10 if the survivors of
// both books together exceed its lot or transfer capacity, and 2 for a map, in that order and with nothing written." The counts that the memory comes with are not looked
// at; beside a refusal they are 0 afterwards.
pub fn join(
    first: &Store,
    second: &Store,
    memory: &mut StoreMut,
    first_maps: &mut MapsMut,
    second_maps: &mut MapsMut,
) -> Result<(), Refusal>
    ensures joined { JoinOf (words first.now) (words second.now) (cleared memory.old) (maps_of first_maps.old second_maps.old)
        (done_of result).number (done_of result).value
        (words_mut memory.new) (maps_of first_maps.new second_maps.new) }
    ensures same { SameSlices memory.old memory.new }
    ensures first_same { SameMaps first_maps.old first_maps.new }
    ensures second_same { SameMaps second_maps.old second_maps.new }
{
    memory.counts = Counts::default();
    check_store(first)?;
    check_store(second)?;
    let lengths = memory.as_store().lengths();
    check_join(
        lengths,
        first.counts,
        second.counts,
        first_maps,
        second_maps,
    )?;
    settle(first, second, memory, first_maps, second_maps);
    Ok(())
}
