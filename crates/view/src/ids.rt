// Public reads that list the live slots in slot order. "List of live nodes or edges in slot order: 1, 2."

ghost use Rattle.std.specs.Prelude.{◌≡◌};
ghost use Rattle.plain.specs.Answers.{answer_of};
ghost use Rattle.plain.specs.Lists.{written};
ghost use Rattle.plain.specs.Reads.{live_slots, node_slots, edge_slots};
ghost use Rattle.liveness.specs.Flags.{live_flags};
ghost use Rattle.shape.specs.Shape.{lists};
ghost use Rattle.shape.specs.Stores.{words};
ghost use Rattle.view.specs.Calls.{Listed, Replied};
ghost use Rattle.view.specs.Ids.{LiveFits, LiveTold};

use liveness::live_slots::LiveSlots;
use memory::need;
use plain::Slots;
use plain::refusals::Refusal;
use shape::Store;
use validate::judging::check_store;

// Writes the live slots below `bound` to the start of `slots`, in slot order, from one live slot to the next. Internal: there is room for them.
// By their index: tried by `iter_mut().zip`, and the proof did not close, since of the slice after it nothing is known but its length.
fn write_live(words: &[u64], bound: usize, slots: &mut [u32])
    requires { LiveFits words.now bound slots.old }
    ensures { slots.new ≡ written (live_slots (live_flags words.now bound)) slots.old }
{
    for (n, slot) in LiveSlots::new(words, bound).enumerate() {
        slots[n] = slot as u32;
    }
}

// Answers with the live slots of one kind, by their words and counts: 2 where there is no room in `slots`, else they are written to its start. Internal: the words are
// as the counts say.
fn list_live(words: &[u64], counted: Slots, slots: &mut [u32]) -> Result<u32, Refusal>
    requires { LiveTold words.now counted }
    ensures { Listed (live_slots (live_flags words.now counted.bound)) slots.old (answer_of result) slots.new }
{
    let live = counted.live;
    need(live as usize, slots.len())?;
    write_live(words, counted.bound as usize, slots);
    Ok(live)
}

// The live nodes in slot order, into `slots`.
pub fn node_ids(store: &Store, slots: &mut [u32]) -> Result<u32, Refusal>
    ensures { Replied (words store.now) (λ w room. node_slots (lists w) room) slots.old (answer_of result) slots.new }
{
    check_store(store)?;
    list_live(store.live_nodes, store.counts.nodes, slots)
}

// The live edges in slot order, into `slots`.
pub fn edge_ids(store: &Store, slots: &mut [u32]) -> Result<u32, Refusal>
    ensures { Replied (words store.now) (λ w room. edge_slots (lists w) room) slots.old (answer_of result) slots.new }
{
    check_store(store)?;
    list_live(store.live_edges, store.counts.edges, slots)
}
