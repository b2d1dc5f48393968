// Rules 1 and 2: the counts, against the lengths of the seven slices and against the live bits.

ghost use Rattle.std.specs.Prelude.{◌*◌, ◌≤◌, ◌≡◌, ◌&&◌, length};
ghost use Rattle.memory.specs.Lengths.{Few};
ghost use Rattle.shape.specs.Rules.{slots_right as slots_test, live_agrees as Live_test};
ghost use Rattle.validate_words.specs.Sizes.{axis_long, sizes_test};

use liveness::count_live;
use memory::Lengths;
use plain::{Counts, LIMIT, Slots};

// One kind of slot: the capacity within the limit, the bound within the capacity, the base within the bound, live words enough.
fn slots_right(capacity: usize, words: usize, slots: Slots) -> bool
    ensures { result ≡ slots_test capacity words slots }
{
    capacity <= LIMIT as usize
        && slots.bound as usize <= capacity
        && slots.base <= slots.bound
        && memory::live_words(capacity) <= words
}

// Whether both axes have the words of the capacities.
fn axes_long(lengths: Lengths) -> bool
    requires { Few lengths.nodes lengths.lows }
    ensures { result ≡ (axis_long lengths.nodes lengths.lows lengths.outgoing && axis_long lengths.nodes lengths.lows lengths.incoming) }
{
    let axis = memory::axis_length(lengths.nodes, lengths.lows);
    axis <= lengths.outgoing && axis <= lengths.incoming
}

// Rule 1, of the counts and the lengths of the seven slices.
#[tactic(auto, unfolding(crate::specs::Sizes::sizes_test))]
pub fn sizes_right(counts: Counts, lengths: Lengths) -> bool
    ensures { result ≡ sizes_test counts lengths.nodes lengths.lows lengths.highs lengths.live_nodes lengths.live_edges lengths.outgoing lengths.incoming }
{
    slots_right(lengths.nodes, lengths.live_nodes, counts.nodes)
        && slots_right(lengths.lows, lengths.live_edges, counts.edges)
        && lengths.lows <= lengths.highs
        && axes_long(lengths)
}

// Rule 2 for one kind of slot: the last word's unused bits are 0, and as many slots are live as the count says.
#[tactic(auto, unfolding(liveness::specs::Flags::counted))]
pub fn live_right(words: &[u64], slots: Slots) -> bool
    requires { slots.bound ≤ 64 * length words.now }
    ensures { result ≡ Live_test words.now slots }
{
    count_live(words, slots.bound as usize) == Some(slots.live as usize)
}
