// The public entries for programs in C and Rust (wrapper/), each by the contract of the entry that it calls; they require nothing. The C interface fixes what they take and
// answer: the counts of a store and its seven slices one by one, and structs of a number and a value. A static library exports the functions of its own crate alone, so
// all stand here. The C header, lots.h, stands beside this crate's src.

#![tactic(auto)]

ghost use Rattle.std.specs.Prelude.{◌≡◌};
ghost use Rattle.plain.specs.Answers.{done_of};
ghost use Rattle.shape.specs.Lent.{at_entry};
ghost use Rattle.shape.specs.Stores.{words};

pub mod chains; // crate nearest
pub mod compaction; // crate compact
pub mod images; // crates image_write and image_read
pub mod joins; // crate join
pub mod maps; // crate renumbering
pub mod slots; // crate view
pub mod stores; // crate strip
pub mod walks; // crate view_walks
pub mod whole; // crates validate and view

use plain::refusals::Refusal;
use plain::{Answer, Changed, Counts};
use shape::Store;

// The store of C's parameters.
fn lent<'a>(
    counts: Counts,
    nodes: &'a [u32],
    lows: &'a [u32],
    highs: &'a [u32],
    live_nodes: &'a [u64],
    live_edges: &'a [u64],
    outgoing: &'a [u32],
    incoming: &'a [u32],
) -> Store<'a>
    ensures { words result ≡ at_entry counts nodes.now lows.now highs.now live_nodes.now live_edges.now outgoing.now incoming.now }
{
    Store {
        counts,
        nodes,
        lows,
        highs,
        live_nodes,
        live_edges,
        outgoing,
        incoming,
    }
}

// What C is answered of a call that makes or changes a store: what it came to, and the counts afterwards.
fn changed(came: Result<(), Refusal>, counts: Counts) -> Changed
    ensures { result ≡ record { number = (done_of came).number; value = (done_of came).value; counts = counts } }
{
    let answer = Answer::from(came);
    Changed {
        number: answer.number,
        value: answer.value,
        counts,
    }
}
