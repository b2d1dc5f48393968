// The nearest lot, document 02, No. 4: the shortest chain of live transfers, following their direction, from one live lot to another; among equal lengths the one
// whose first edge stands earliest in the out-list, then its second, and so on. A search backwards from the second lot gives each lot its distance, and the way
// forward takes at each lot the first transfer of its out-list that leads one nearer. Linear in the store.

#![tactic(auto)]

pub mod backwards;
pub mod forwards;

ghost use Rattle.plain.specs.Answers.{answer_of, done_of};
ghost use Rattle.shape.specs.Stores.{words};
ghost use Rattle.nearest.specs.Stores.{Asked};
ghost use Rattle.nearest.specs.Answers.{Found, Answered, Refused};
ghost use Rattle.nearest.specs.Calls.{NearestOf};

use memory::need;
use plain::refusals::Refusal;
use shape::Store;
use validate::judging::check_store;

// What is refused before the search, where the work slice has `room` words: 1, first 5, 6, second 5, 6, 2. Internal: it writes nothing.
fn check_ask(store: &Store, first: u32, second: u32, room: usize) -> Result<(), Refusal>
    ensures { Refused (words store.now) first second room (done_of result) }
{
    check_store(store)?;
    store.live_node(first)?;
    store.live_node(second)?;
    need(2 * store.nodes.len(), room)
}

// The search, and the way forward where there is one and room for it; the borrowed words are left as they come. Internal: nothing is refused before the search.
fn find_chain(
    store: &Store,
    first: u32,
    second: u32,
    work: &mut [u32],
    chain: &mut [u32],
) -> Result<usize, Refusal>
    requires { Asked (words store.now) first second work.old }
    ensures { Found (words store.now) first second work.old chain.old (answer_of result) work.new chain.new }
{
    let left = backwards::search(store, first, second, work).ok_or(Refusal::Unreachable)?;
    need(left, chain.len())?;
    forwards::write_way(store, work, second, left, first, chain);
    Ok(left)
}

// The nearest chain from one live lot to another, and the borrowed words clear. Internal: nothing is refused before the search.
fn nearest_chain(
    store: &Store,
    first: u32,
    second: u32,
    work: &mut [u32],
    chain: &mut [u32],
) -> Result<usize, Refusal>
    requires { Asked (words store.now) first second work.old }
    ensures { Answered (words store.now) first second work.old chain.old (answer_of result) work.new chain.new }
{
    let found = find_chain(store, first, second, work, chain);
    work[..2 * store.nodes.len()].fill(0);
    found
}

// The nearest chain from lot `first` to lot `second` as edge slots into `chain`; the value is its length. 1, first 5, 6, second 5, 6, 2 for `work`, 14, 2 for `chain`.
// The first words of `work`, twice the lot capacity, are all zero after 0, 14 and the last 2, whatever they were; other refusals write nothing.
pub fn nearest(
    store: &Store,
    first: u32,
    second: u32,
    work: &mut [u32],
    chain: &mut [u32],
) -> Result<usize, Refusal>
    ensures { NearestOf (words store.now) first second work.old chain.old (answer_of result) work.new chain.new }
{
    check_ask(store, first, second, work.len())?;
    nearest_chain(store, first, second, work, chain)
}
