// Renumberings: maps from old slots to new ones that compactions leave, NONE where a slot did not survive. `lookup`, `compose` and
// `is_identity` are public entries: any words are legal input.

#![tactic(auto)]

ghost use Rattle.std.specs.Prelude.{◌≡◌, Ok};
ghost use Rattle.plain.specs.Answers.{answer_of, yes_no_of, done_of};
ghost use Rattle.plain.specs.Renumbering.{is_identity_map};
ghost use Rattle.renumbering.specs.Calls.{through, Lookup, Compose, IsIdentity};

use memory::need;
use plain::NONE;
use plain::refusals::Refusal;

// The new slot of an old one, NONE where it did not survive or is out of range. It is no Option: what it answers is a word of a map again, in the composed
// map and for C, and would be made one only to be undone.
#[tactic(auto, unfolding(plain::specs::Renumbering::lookup, plain::specs::Renumbering::lookup_answer))]
pub fn lookup(renumbering: &[u32], slot: u32) -> u32
    ensures { Lookup renumbering.now slot (answer_of (Ok result)) }
{
    renumbering.get(slot as usize).copied().unwrap_or(NONE)
}

// What the second map makes of a slot that the first one gave.
#[tactic(auto, unfolding(plain::specs::Renumbering::lookup_answer))]
fn lookup_again(second: &[u32], slot: u32) -> u32
    ensures { result ≡ through second.now slot }
{
    if slot == NONE {
        NONE
    } else {
        lookup(second, slot)
    }
}

// The first map and then the second, into `res`, which has to be as long as the first.
pub fn compose(first: &[u32], second: &[u32], res: &mut [u32]) -> Result<(), Refusal>
    ensures { Compose first.now second.now res.old (done_of result) res.new }
{
    need(first.len(), res.len())?;
    // a zip of `res.iter_mut()` with the first map was tried, and the proof did not close: the loop's invariant cannot name the words that are written so
    for (i, slot) in first.iter().enumerate() {
        res[i] = lookup_again(second, *slot);
    }
    Ok(())
}

// Whether a map gives every slot its own number.
fn is_identity_map(renumbering: &[u32]) -> bool
    ensures { result ≡ is_identity_map renumbering.now }
{
    renumbering
        .iter()
        .enumerate()
        .all(|(i, slot)| *slot as usize == i)
}

// Whether both maps give every slot its own number.
#[tactic(auto, unfolding(plain::specs::Renumbering::is_identity))]
pub fn is_identity(nodes: &[u32], edges: &[u32]) -> bool
    ensures { IsIdentity nodes.now edges.now (yes_no_of (Ok result)) }
{
    is_identity_map(nodes) && is_identity_map(edges)
}
