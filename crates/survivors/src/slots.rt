// Slots under compaction: the map from old slots to new ones, the words of the live slots moved down, and words put through a map. Port of `surviving_slots`,
// `take_live_nodes` and `remap_endpoint` of compact.rs. All functions are internal and work in place: there is no second column to move to.

ghost use Rattle.std.specs.Prelude.{◌≡◌, length};
ghost use Rattle.plain.specs.Lists.{written};
ghost use Rattle.plain.specs.Reads.{live_count};
ghost use Rattle.plain.specs.Compaction.{renumbering_from};
ghost use Rattle.liveness.specs.Flags.{live_flags};
ghost use Rattle.shape.specs.Index.{Rewritten};
ghost use Rattle.survivors.specs.Slots.{MapFits, Keepable, kept_word, WeightsKeepable, WeightsKept, Translatable, translated_word};

use liveness::is_live;
use liveness::live_slots::LiveSlots;
use plain::NONE;

// Writes the new number of every live slot, counted from `first` on, and NONE for the dead ones, to the start of `map`. Compaction counts from 0; joining counts the
// slots of the second book from the number of the first's.
pub fn write_map(live: &[u64], bound: usize, first: u32, map: &mut [u32])
    requires { MapFits live.now bound first map.old }
    ensures { map.new ≡ written (renumbering_from first (live_flags live.now bound)) map.old }
{
    let mut next: u32 = first;
    for (slot, word) in map[..bound].iter_mut().enumerate() {
        if is_live(live, bound, slot) {
            *word = next;
            next += 1;
        } else {
            // NONE, since the map's words go to C.
            *word = NONE;
        }
    }
}

// Moves the words of the live slots, `count` of them, down in slot order; words past those are as they were. Where every slot is live no word moves.
// `bound` is an argument, and not the length of `words`, as it also says how many bits of `live` are slots; each caller has the whole column.
pub fn keep_live(words: &mut [u32], live: &[u64], bound: usize, count: usize)
    requires { Keepable words.old live.now bound count }
    ensures { Rewritten words.old words.new 0 (live_count (live_flags live.now bound))
        (kept_word words.old (live_flags live.now bound)) }
{
    if count == bound {
        return;
    }
    for (to, slot) in LiveSlots::new(live, bound).enumerate() {
        words[to] = words[slot];
    }
}

// Moves the lows and the highs of the live edges down: two slices, as the C interface lends them.
pub fn keep_weights(lows: &mut [u32], highs: &mut [u32], live: &[u64], bound: usize, count: usize)
    requires { WeightsKeepable lows.old highs.old live.now bound count }
    ensures { WeightsKept lows.old highs.old (live_flags live.now bound) lows.new highs.new }
{
    keep_live(lows, live, bound, count);
    keep_live(highs, live, bound, count);
}

// Puts words through a map: each becomes what the map holds at it.
pub fn translate(words: &mut [u32], map: &[u32])
    requires { Translatable words.old (length words.old) map.now }
    ensures { Rewritten words.old words.new 0 (length words.old) (translated_word words.old map.now) }
{
    for word in words.iter_mut() {
        *word = map[*word as usize];
    }
}
