// The search backwards from a lot, breadth first over in-lists. Of a work slice the first words are one a lot, 0 for a lot not seen and else one more than its
// distance, and as many after them are the queue: the caller lends the memory, so that it is no list of its own. All functions are internal: the call has checked the
// store. Each lot enters the queue once, and each transfer is looked at once.

ghost use Rattle.std.specs.Prelude.{◌+◌, ◌≡◌, get_or, set};
ghost use Rattle.plain.specs.Plain.{list_of};
ghost use Rattle.plain.specs.declared.TraversalDirection.TheVariants.{Incoming};
ghost use Rattle.shape.specs.Columns.{end_at};
ghost use Rattle.shape.specs.Shape.{node_capacity, lists};
ghost use Rattle.shape.specs.Stores.{words};
ghost use Rattle.nearest.specs.Frontier.{frontier, turn, expanded};
ghost use Rattle.nearest.specs.Stores.{Asked};
ghost use Rattle.nearest.specs.Backwards.{Seeable, ExpandLot, Drain, Drained, Seedable, Sought, word_of};

use adjacency::reads;
use plain::TraversalDirection;
use shape::Store;

// Looks at a lot: one that is new gets its word and goes to the end of the queue. Answers the queue's length, which goes beside the slice: unlike a text
// or a pen, the words in front of the queue are read between two calls.
fn see(work: &mut [u32], node_capacity: usize, tail: usize, word: u32, lot: u32) -> usize
    requires { Seeable node_capacity lot tail work.old }
    ensures { frontier result work.new ≡ turn node_capacity word lot (frontier tail work.old) }
{
    let at = lot as usize;
    if work[at] == 0 {
        work[at] = word;
        let end = node_capacity + tail;
        work[end] = lot;
        return tail + 1;
    }
    tail
}

// Goes through the in-list of a lot of the queue, along the entries (cursor::edges says why): each new source gets one more than the lot's word. Answers the queue's
// length.
fn expand_lot(store: &Store, lot: u32, tail: usize, work: &mut [u32]) -> usize
    requires { ExpandLot (words store.now) lot tail work.old }
    ensures { let w = words store.now in frontier result work.new
        ≡ expanded (node_capacity w) (end_at w.outgoing) (get_or work.old lot 0 + 1) (list_of Incoming (lists w) lot) (frontier tail work.old) }
{
    let word = work[lot as usize] + 1;
    let (entries, listed) = reads::edges(store, TraversalDirection::Incoming, lot).parts();
    let mut end = tail;
    for edge in entries {
        if listed.has(edge) {
            let source = store.outgoing[edge as usize];
            end = see(work, store.nodes.len(), end, word, source);
        }
    }
    end
}

// Takes lots from the queue, the goal first, until the first lot has a word or the queue is done.
fn drain(store: &Store, first: usize, goal: u32, work: &mut [u32])
    requires { Drain (words store.now) first goal work.old }
    ensures { Drained (words store.now) first goal work.old work.new }
{
    let mut head: usize = 0;
    let mut tail: usize = 1;
    // The queue grows while it is taken from, so that no range says how far it goes.
    while head < tail {
        if work[first] != 0 {
            return;
        }
        let lot = work[store.nodes.len() + head];
        tail = expand_lot(store, lot, tail, work);
        head += 1;
    }
}

// Gives the goal its word and its place in the queue.
fn seed(work: &mut [u32], node_capacity: usize, goal: u32)
    requires { Seedable node_capacity goal work.old }
    ensures { work.new ≡ set (set work.old goal 1) node_capacity goal }
{
    let at = goal as usize;
    work[at] = 1;
    work[node_capacity] = goal;
}

// Searches backwards from the goal, whatever the work slice held. Answers the length of the shortest chain from the first lot, if there is one.
pub fn search(store: &Store, first: u32, goal: u32, work: &mut [u32]) -> Option<usize>
    requires { Asked (words store.now) first goal work.old }
    ensures { Sought (words store.now) first goal work.old work.new (word_of result) }
{
    let lots = store.nodes.len();
    work[..lots].fill(0);
    seed(work, lots, goal);
    let at = first as usize;
    drain(store, at, goal, work);
    match work[at] {
        0 => None,
        word => Some((word - 1) as usize),
    }
}
