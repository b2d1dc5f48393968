// Which slots are live: a bit a slot, packed into lent words, 64 slots a word, the lowest bit first. All functions are internal: where
// the words may be shorter than the slots need, the length is required. What the words mean is `live_flags` of specs/Flags.antt.
// `words` and `slots` stay two parameters: a store holds its words and its counts apart, so that a value of both, with the length in its type, would be made and its
// length proved at each call, which is no plainer. `LiveSlots` is such a value where all slots are passed, `Listed` of crate cursor where the edges of a walk are, and
// `Store` asks of its own.

#![tactic(auto)]

pub mod live_slots;

ghost use Rattle.std.specs.Prelude.{◌*◌, ◌<◌, ◌≤◌, ◌≡◌, false, length, get_or, unwrap_or, IfSome};
ghost use Rattle.plain.specs.Reads.{live_count};
ghost use Rattle.plain.specs.Compaction.{rank as rank_of};
ghost use Rattle.liveness.specs.Flags.{live_flags, packed, counted, next_live};
ghost use Rattle.liveness.specs.Calls.{Pushed, Cleared, Reset};
ghost use Rattle.liveness.specs.Ranks.{RanksFit, Ranked};

// Appends a live slot: where it is the first of its word, the whole word is written, whatever stood there.
pub fn push_live(words: &mut [u64], slots: usize)
    requires { slots < 64 * length words.old }
    ensures { Pushed words.old slots words.new }
{
    let at = slots / 64;
    let bit = slots % 64;
    if bit == 0 {
        words[at] = 1;
        return;
    }
    let word = words[at];
    if (word >> bit) % 2 == 0 {
        words[at] = word + (1u64 << bit);
    }
}

// Whether a slot is live; one out of range is not.
#[tactic(auto, unfolding(crate::specs::Flags::live_bit, crate::specs::Flags::bit), using(crate::specs::Laws::Flags::flag_at, crate::specs::Laws::Flags::flag_past))]
pub fn is_live(words: &[u64], slots: usize, slot: usize) -> bool
    requires { slots ≤ 64 * length words.now }
    ensures { result ≡ get_or (live_flags words.now slots) slot false }
{
    if slots <= slot {
        return false;
    }
    (words[slot / 64] >> (slot % 64)) % 2 == 1
}

// Makes a slot dead, and answers whether it was live.
pub fn clear(words: &mut [u64], slots: usize, slot: usize) -> bool
    requires { slots ≤ 64 * length words.old }
    ensures { Cleared words.old slots slot result words.new }
{
    if is_live(words, slots, slot) {
        let at = slot / 64;
        words[at] = words[at] - (1u64 << (slot % 64));
        return true;
    }
    false
}

// How many of the first slots are live, a word at a time.
fn count_before(words: &[u64], slots: usize) -> usize
    requires { slots ≤ 64 * length words.now }
    ensures { result ≡ live_count (live_flags words.now slots) }
{
    let full = slots / 64;
    let rest = slots % 64;
    let mut live: usize = 0;
    for word in &words[..full] {
        live += word.count_ones() as usize;
    }
    if rest == 0 {
        return live;
    }
    live + (words[full] % (1u64 << rest)).count_ones() as usize
}

// Whether the last word's unused bits are 0.
#[tactic(auto, unfolding(crate::specs::Flags::packed))]
fn is_packed(words: &[u64], slots: usize) -> bool
    requires { slots ≤ 64 * length words.now }
    ensures { result ≡ packed words.now slots }
{
    let rest = slots % 64;
    if rest == 0 {
        return true;
    }
    words[slots / 64] >> rest == 0
}

// The number of live slots where the words have the packed shape, and none where a bit past the last slot is set.
#[tactic(auto, unfolding(crate::specs::Flags::counted))]
pub fn count_live(words: &[u64], slots: usize) -> Option<usize>
    requires { slots ≤ 64 * length words.now }
    ensures { result ≡ counted words.now slots }
{
    if is_packed(words, slots) {
        Some(count_before(words, slots))
    } else {
        None
    }
}

// Writes how many live slots stand before each word to the start of `ranks`, for `rank_by`.
pub fn write_ranks(words: &[u64], slots: usize, ranks: &mut [u32])
    requires { RanksFit words.now slots ranks.old }
    ensures { Ranked words.now slots ranks.new }
{
    let count = slots.div_ceil(64);
    let mut live: u32 = 0;
    // a zip of `ranks.iter_mut()` with the words was tried, and the proof did not close: the loop's invariant cannot name the counts that are written so
    for i in 0..count {
        ranks[i] = live;
        live += words[i].count_ones();
    }
}

// How many live slots stand before a slot, in constant time: those before its word, and those of its word's low bits. The three first parameters are one value in crate
// image_write's `Numbering`, which alone calls it.
pub fn rank_by(words: &[u64], slots: usize, ranks: &[u32], slot: usize) -> u32
    requires { Ranked words.now slots ranks.now × (slot < slots) }
    ensures { result ≡ rank_of (live_flags words.now slots) slot }
{
    let at = slot / 64;
    ranks[at] + (words[at] % (1u64 << (slot % 64))).count_ones()
}

// Makes the first slots live, with the packed shape; words past those needed are as they were.
pub fn reset_all_live(words: &mut [u64], slots: usize)
    requires { slots ≤ 64 * length words.old }
    ensures { Reset words.old slots words.new }
{
    let full = slots / 64;
    let rest = slots % 64;
    words[..full].fill(u64::MAX);
    if rest != 0 {
        words[full] = (1u64 << rest) - 1;
    }
}

// The first live slot from word `start` on, a word at a time.
fn next_in_words(words: &[u64], slots: usize, start: usize) -> Option<usize>
    requires { (slots ≤ 64 * length words.now) × (0 < slots) }
    ensures next { unwrap_or result slots ≡ next_live (live_flags words.now slots) (64 * start) }
    ensures below { IfSome result (λ slot. slot < slots) }
{
    let last = (slots - 1) / 64;
    for i in start..=last {
        let word = words[i];
        if word != 0 {
            let slot = 64 * i + word.trailing_zeros() as usize;
            return (slot < slots).then_some(slot);
        }
    }
    None
}

// The first live slot at or after `from`.
pub fn next_live(words: &[u64], slots: usize, from: usize) -> Option<usize>
    requires { slots ≤ 64 * length words.now }
    ensures next { unwrap_or result slots ≡ next_live (live_flags words.now slots) from }
    ensures below { IfSome result (λ slot. slot < slots) }
{
    if slots <= from {
        return None;
    }
    let word = words[from / 64] >> (from % 64);
    if word != 0 {
        let slot = from + word.trailing_zeros() as usize;
        return (slot < slots).then_some(slot);
    }
    next_in_words(words, slots, from / 64 + 1)
}
