// What joining two books is refused with, by numbers alone: counts and lengths. Decided before the first write.

ghost use Rattle.std.specs.Prelude.{◌≡◌};
ghost use Rattle.plain.specs.Answers.{done_of};
ghost use Rattle.plain.specs.Joining.{join_answer};
ghost use Rattle.memory.specs.Lengths.{measured};
ghost use Rattle.join_columns.specs.Answers.{sizes_of, rooms_of};

use memory::{Lengths, Limits, check_fresh, need};
use plain::Counts;
use plain::refusals::Refusal;
use survivors::maps::MapsMut;

// Refuses to join two checked books by their counts and by the lengths of what is lent: the third memory as a store's, 10 if the survivors of both exceed it, and
// 2 for the first map too short, "nodes and edges of the first book, then of the second".
#[tactic(auto, unfolding(plain::specs::Joining::join_answer, plain::specs::Memory::first_short))]
pub fn check_join(
    lengths: Lengths,
    first: Counts,
    second: Counts,
    first_maps: &MapsMut,
    second_maps: &MapsMut,
) -> Result<(), Refusal>
    ensures { done_of result ≡ join_answer (measured lengths) (sizes_of first) (sizes_of second) (rooms_of first_maps.now second_maps.now) }
{
    check_fresh(Limits::BOX, lengths)?;
    if lengths.nodes < first.nodes.live as usize + second.nodes.live as usize
        || lengths.lows < first.edges.live as usize + second.edges.live as usize
    {
        return Err(Refusal::Full);
    }
    need(first.nodes.bound as usize, first_maps.nodes.len())?;
    need(first.edges.bound as usize, first_maps.edges.len())?;
    need(second.nodes.bound as usize, second_maps.nodes.len())?;
    need(second.edges.bound as usize, second_maps.edges.len())
}
