// Slots of two books, one book behind the other: the words of the live slots copied in slot order. All functions are internal.

ghost use Rattle.std.specs.Prelude.{◌≡◌, ◌++◌};
ghost use Rattle.plain.specs.Lists.{written};
ghost use Rattle.liveness.specs.Flags.{live_flags};
ghost use Rattle.survivors.specs.Slots.{live_words_of};
ghost use Rattle.join_columns.specs.Slots.{BothCopyable, Copyable, live_words_in};

use liveness::live_slots::LiveSlots;
use plain::Slots;

// One word a slot of a book, and which of the slots are live.
#[derive(Clone, Copy)]
pub struct Column<'a> {
    pub slots: Slots,
    pub words: &'a [u32],
    pub live: &'a [u64],
}

// Copies the words of the live slots, in slot order, to the start of `out`. By place: `out.iter_mut().zip(live_slots)` was tried, and the proof did not close, as nothing is
// known of the words that such a loop writes.
pub fn copy_live(words: &[u32], live: &[u64], bound: usize, out: &mut [u32])
    requires { Copyable words.now live.now bound out.old }
    ensures { out.new ≡ written (live_words_of words.now (live_flags live.now bound)) out.old }
{
    let live_slots = LiveSlots::new(live, bound);
    for (to, slot) in live_slots.enumerate() {
        out[to] = words[slot];
    }
}

// The words of the first book's live slots, then those of the second's.
pub fn join_slots(out: &mut [u32], first: &Column, second: &Column)
    requires { BothCopyable out.old first.now.slots first.now.words.now first.now.live.now second.now.slots second.now.words.now second.now.live.now }
    ensures { out.new ≡ written (live_words_in first.now ++ live_words_in second.now) out.old }
{
    let count = first.slots.live as usize;
    copy_live(first.words, first.live, first.slots.bound as usize, out);
    copy_live(
        second.words,
        second.live,
        second.slots.bound as usize,
        &mut out[count..],
    );
}
