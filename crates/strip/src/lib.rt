// A fresh store, and the strip: document 01's list of operations on a store, behind the check. Port of what store.rs offers to its callers.

#![tactic(auto)]

ghost use Rattle.std.specs.Prelude.{◌+◌, ◌*◌, ◌≤◌, ◌≡◌, IfErr, length, set};
ghost use Rattle.plain.specs.Numbers.{NONE as none};
ghost use Rattle.plain.specs.Operations.{operations};
ghost use Rattle.plain.specs.Refusals.{value_of};
ghost use Rattle.plain.specs.Answers.{answer_of, done_of};
ghost use Rattle.memory.specs.Lengths.{measured, device_of};
ghost use Rattle.shape.specs.Stores.{words_mut, SameSlices};
ghost use Rattle.strip.specs.Fresh.{Made};
ghost use Rattle.strip.specs.Strip.{Runnable, Ran, Opening, StripOf};

use memory::{Device, Lengths};
use plain::refusals::Refusal;
use plain::{Answer, Counts, OPERATION_WORDS, Operation};
use shape::StoreMut;
use validate::judging::check_store;

// A fresh store in memory of these lengths, whatever words stand there: its counts, or why it is refused, on a box by 13, on the skid by 15 "in place of 13", nodes before edges,
// then by 2. It is empty with bounds 0, so that no word of it is a field, and none is written.
pub fn fresh(device: Device, lengths: Lengths) -> Result<Counts, Refusal>
    ensures { Made (device_of device) (measured lengths) result }
{
    memory::check_fresh(device.limits(), lengths)?;
    Ok(Counts::default())
}

// Writes the two words of answer i: the words that a caller in C reads. No value of a step is above a word, so that none is cut.
fn write_answer(answers: &mut [u32], i: usize, came: Result<u32, Refusal>)
    requires room { 2 * i + 2 ≤ length answers.old }
    requires untold { IfErr came (λ refusal. value_of refusal ≡ none) }
    ensures { answers.new ≡ set (set answers.old (2 * i) (answer_of came).number) (2 * i + 1) (answer_of came).value }
{
    let answer = Answer::from(came);
    let to = 2 * i;
    answers[to] = answer.number;
    answers[to + 1] = answer.value as u32;
}

// The operations of a strip in turn, with two words of answer each. A refused operation changes nothing and the strip goes on.
fn run(store: &mut StoreMut, words: &[u32], answers: &mut [u32])
    requires { Runnable (words_mut store.old) words.now answers.old }
    ensures same { SameSlices store.old store.new }
    ensures ran { Ran (words_mut store.old) (operations words.now) answers.old (words_mut store.new) answers.new }
{
    let (operations, _) = words.as_chunks::<OPERATION_WORDS>();
    for (i, operation) in operations.iter().enumerate() {
        let came = step::step(store, operation::decode(*operation));
        write_answer(answers, i, came);
    }
}

// What a strip on a store is refused with before its first operation: "3, 2", by its length and the room for its answers.
fn opening(length: usize, room: usize) -> Result<(), Refusal>
    ensures { Opening 0 length room (done_of result) }
{
    if length % OPERATION_WORDS != 0 {
        return Err(Refusal::Ragged(length as u64));
    }
    memory::need(2 * (length / OPERATION_WORDS), room)
}

// A strip: "1, 3, 2", then its operations. The store is checked once. Refused, nothing is written.
pub fn strip(store: &mut StoreMut, words: &[u32], answers: &mut [u32]) -> Result<(), Refusal>
    ensures same { SameSlices store.old store.new }
    ensures strips { StripOf (words_mut store.old) words.now answers.old (done_of result).number (done_of result).value (words_mut store.new) answers.new }
{
    check_store(&store.as_store())?;
    opening(words.len(), answers.len())?;
    run(store, words, answers);
    Ok(())
}
