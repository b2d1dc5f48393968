// The live slots in slot order, as an iterator that goes from one to the next, a word at a time.

ghost use Rattle.std.specs.Prelude.{◌*◌, ◌≤◌, ◌≡◌, length};
ghost use Rattle.plain.specs.Reads.{live_slots};
ghost use Rattle.liveness.specs.Flags.{live_flags};

use crate::{is_live, next_live};

// What is left of the live slots: those from slot `from` on.
#[derive(Clone, Copy)]
pub struct LiveSlots<'a> {
    words: &'a [u64],
    slots: usize,
    from: usize,
    ghost long: { slots ≤ 64 * length words.now },
}

impl<'a> LiveSlots<'a> {
    ghost use Rattle.liveness.specs.LiveSlots.{left};

    // All live slots of the first `slots`.
    pub fn new(words: &'a [u64], slots: usize) -> LiveSlots<'a>
        requires { slots ≤ 64 * length words.now }
        ensures { left result ≡ live_slots (live_flags words.now slots) }
    {
        LiveSlots {
            words,
            slots,
            from: 0,
        }
    }
}

impl Iterator for LiveSlots<'_> {
    ghost use Rattle.std.specs.Iterator.{YieldsFirst, item_count};
    ghost use Rattle.liveness.specs.LiveSlots.{left};

    type Item = usize;

    ghost next_gives = { YieldsFirst left };

    ghost remaining = { item_count left };

    fn next(&mut self) -> Option<usize> {
        // Most slots are live: the bit of the first of them is tested before the search, for whose answer each turn would wait.
        let from = self.from;
        if is_live(self.words, self.slots, from) {
            self.from = from + 1;
            return Some(from);
        }
        let slot = next_live(self.words, self.slots, from)?;
        self.from = slot + 1;
        Some(slot)
    }
}
