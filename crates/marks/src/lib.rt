// A mark map: a bit an edge, an array of the call itself that is clear at the start. For rules 6 and 7 of the check and rule 6 of an image: no edge twice.

#![tactic(auto)]

ghost use Rattle.std.specs.Prelude.{◌*◌, ◌<◌, length};
ghost use Rattle.marks.specs.Marks.{Marked};

// How many words a map of all edges has: a bit for each of plain::LIMIT.
pub const WORDS: usize = 512;

// Marks an edge, and answers whether it was not marked. The map is the words of the caller's array: a struct of the array would be no plainer, since each clause here and above
// would speak of the words inside it.
pub fn mark(seen: &mut [u64], edge: usize) -> bool
    requires { edge < 64 * length seen.old }
    ensures { Marked seen.old edge result seen.new }
{
    let at = edge / 64;
    let bit = edge % 64;
    let word = seen[at];
    if (word >> bit) % 2 == 1 {
        return false;
    }
    seen[at] = word + (1u64 << bit);
    true
}
