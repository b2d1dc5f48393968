// The new numbers of what is live: those that compaction would give.

ghost use Rattle.std.specs.Prelude.{◌<◌, ◌≡◌};
ghost use Rattle.plain.specs.Bits.{least_width};
ghost use Rattle.plain.specs.Reads.{live_count};
ghost use Rattle.plain.specs.Compaction.{rank};
ghost use Rattle.liveness.specs.Flags.{live_flags};
ghost use Rattle.liveness.specs.Ranks.{RanksFit};
ghost use Rattle.image_write.specs.Numbering.{Numbered};

use liveness::{rank_by, write_ranks};
use plain::Slots;

// The live bits of the slots of one kind, how many live slots stand before each of their words, whether no slot is removed, and how many bits a new number takes.
#[derive(Clone, Copy)]
pub struct Numbering<'a> {
    pub live: &'a [u64],
    pub slots: usize,
    pub ranks: &'a [u32],
    pub all: bool,
    pub width: u32,
    ghost numbered: { Numbered live.now slots ranks.now all },
}

impl<'a> Numbering<'a> {
    // The numbering of slots of one kind that are counted right; `ranks` takes the counts before each word.
    #[tactic(auto, using(liveness::specs::Laws::Flags::count_le))]
    pub fn new(live: &'a [u64], slots: Slots, ranks: &'a mut [u32]) -> Numbering<'a>
        requires fit { RanksFit live.now slots.bound ranks.old }
        requires right { slots.live ≡ live_count (live_flags live.now slots.bound) }
        ensures live { result.live.now ≡ live.now }
        ensures slots { result.slots ≡ slots.bound }
        ensures width { result.width ≡ least_width slots.live }
    {
        let bound = slots.bound as usize;
        write_ranks(live, bound, ranks);
        Numbering {
            live,
            slots: bound,
            ranks,
            all: slots.live == slots.bound,
            width: bits::least_width(slots.live),
        }
    }

    // The new number of a slot: how many live slots stand before it, or the slot itself where none is removed.
    pub fn new_number(&self, slot: u32) -> u32
        requires { slot < self.now.slots }
        ensures { result ≡ rank (live_flags self.now.live.now self.now.slots) slot }
    {
        if self.all {
            slot
        } else {
            rank_by(self.live, self.slots, self.ranks, slot as usize)
        }
    }
}
