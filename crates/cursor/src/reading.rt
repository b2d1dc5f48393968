// What is read of the listed edges of a walk: the edges or their ends written to a slice, the sums of their weights, and the first that ends at a node.

ghost use Rattle.std.specs.Prelude.{◌^◌, ◌≤◌, ◌<◌, ◌≡◌, map, length, unwrap_or};
ghost use Rattle.plain.specs.Numbers.{NONE as none};
ghost use Rattle.plain.specs.Lists.{keep, written};
ghost use Rattle.cursor.specs.Cursor.{word, listed_by, Within, ListWritten};
ghost use Rattle.cursor.specs.Finding.{first_of, ends_at, Among};
ghost use Rattle.cursor.specs.Summing.{sums_of, Summable};

use crate::edges::AdjacentEdges;
use crate::entries::Entries;
use crate::listed::Listed;
use plain::Sums;

impl<'a> AdjacentEdges<'a> {
    // How many edges are left. It goes along the entries itself, as writing does: where one entry in eight is removed, a search for each next edge took three
    // times as long.
    pub fn count(self) -> usize
        ensures { result ≡ length self.entry }
    {
        let listed = self.listed;
        let mut count = 0;
        for edge in self.entries.countable() {
            if listed.has(edge) {
                count += 1;
            }
        }
        count
    }

    // Writes the edges to the start of `out`, and answers how many they are.
    pub fn write(self, out: &mut [u32]) -> usize
        requires { length self ≤ length out.old }
        ensures { ListWritten self.entry out.old result out.new }
    {
        let listed = self.listed;
        let mut n = 0;
        for edge in self.entries {
            if listed.has(edge) {
                out[n] = edge;
                n += 1;
            }
        }
        n
    }

    // Writes the ends of the edges, by the column `ends`, to the start of `out`.
    pub fn write_ends(self, ends: &[u32], out: &mut [u32])
        requires fits { length self ≤ length out.old }
        requires within { Within ends.now self }
        ensures { out.new ≡ written (map (word ends.now) self.entry) out.old }
    {
        let listed = self.listed;
        let mut n = 0;
        for edge in self.entries {
            if listed.has(edge) {
                out[n] = ends[edge as usize];
                n += 1;
            }
        }
    }

    // The sums over the edges of what two columns have at each.
    pub fn total(self, lows: &[u32], highs: &[u32]) -> Sums
        requires { Summable lows.now highs.now self }
        ensures { result ≡ sums_of lows.now highs.now self.entry }
    {
        let listed = self.listed;
        let mut sums = Sums { low: 0, high: 0 };
        for edge in self.entries {
            if listed.has(edge) {
                let at = edge as usize;
                sums.low += u64::from(lows[at]);
                sums.high += u64::from(highs[at]);
            }
        }
        sums
    }
}

impl<'a> Entries<'a> {
    // The first listed entry whose end, by the column `ends`, is `end`. It looks at the end before the live bit, since most entries end elsewhere.
    pub fn find_end(self, ends: &[u32], end: u32, listed: Listed<'_>) -> Option<u32>
        requires { Within ends.now self }
        ensures first { unwrap_or result none ≡ first_of (ends_at ends.now end) (keep (listed_by listed.entry) self.entry) }
        ensures among { Among result (keep (listed_by listed.entry) self.entry) }
    {
        // a `find` with both tests was tried, and the proof did not close: that the closure may read the end of each entry that it is asked stayed open
        for edge in self {
            if ends[edge as usize] == end && listed.has(edge) {
                return Some(edge);
            }
        }
        None
    }
}
