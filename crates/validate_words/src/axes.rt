// Rules 3 and 4 for one direction: the ends of the edges and the compressed index.
ghost use Rattle.std.specs.Prelude.{suc, ◌+◌, ◌*◌, ◌<◌, ◌≡◌, length, get_or, leb, ltb};
ghost use Rattle.plain.specs.Lists.{all, from};
ghost use Rattle.shape.specs.Columns.{cell};
ghost use Rattle.shape.specs.Rules.{ends_right as ends_test, index_right as index_test};
ghost use Rattle.validate_words.specs.Sizes.{AxisSized};

use shape::Layout;

// All words of a slice are below a bound. No early exit, so that it is a pass over vectors. Internal.
pub fn words_below(words: &[u32], bound: u32) -> bool
    ensures { result ≡ all (λ i. ltb (get_or words.now i 0) bound) (from 0 (length words.now)) }
{
    let mut right = true;
    for word in words {
        right &= *word < bound;
    }
    right
}

// No word of one slice is above the word at its place in another of the same length. No early exit, so that it is a pass over vectors. Internal.
pub fn none_above(lows: &[u32], highs: &[u32]) -> bool
    requires { length lows.now ≡ length highs.now }
    ensures { result ≡ all (λ i. leb (get_or lows.now i 0) (get_or highs.now i 0)) (from 0 (length lows.now)) }
{
    let mut right = true;
    for (low, high) in lows.iter().zip(highs) {
        right &= *low <= *high;
    }
    right
}

// Rule 3: the end of every edge, removed or not, is below the node bound.
pub fn ends_right(axis: &[u32], layout: Layout) -> bool
    requires { AxisSized axis.now layout.edge_capacity layout.node_capacity layout.counts }
    ensures { result ≡ ends_test layout.counts axis.now }
{
    words_below(
        &axis[..layout.counts.edges.bound as usize],
        layout.counts.nodes.bound,
    )
}

// The offsets up to the base count do not descend.
fn offsets_ascend(axis: &[u32], at: usize, base: usize) -> bool
    requires { at + base < length axis.now }
    ensures { result ≡ all (λ x. leb (cell axis.now at x) (cell axis.now at (suc x))) (from 0 base) }
{
    none_above(&axis[at..at + base], &axis[at + 1..at + 1 + base])
}

// The entries of the compressed index are below the base count.
fn entries_low(axis: &[u32], at: usize, base: u32) -> bool
    requires { at + base < length axis.now }
    ensures { result ≡ all (λ i. ltb (cell axis.now at i) base) (from 0 base) }
{
    words_below(&axis[at..at + base as usize], base)
}

// Rule 4: the compressed index. No index word is read where both base counts are 0.
#[tactic(auto, unfolding(shape::specs::Rules::index_right))]
pub fn index_right(axis: &[u32], layout: Layout) -> bool
    requires { AxisSized axis.now layout.edge_capacity layout.node_capacity layout.counts }
    ensures { result ≡ index_test layout.edge_capacity layout.node_capacity layout.counts.nodes.base layout.counts.edges.base axis.now }
{
    let base_nodes = layout.counts.nodes.base as usize;
    let base_edges = layout.counts.edges.base;
    let at = 4 * layout.edge_capacity + 5 * layout.node_capacity;
    (base_nodes == 0 && base_edges == 0)
        || (axis[at] == 0
            && offsets_ascend(axis, at, base_nodes)
            && axis[at + base_nodes] == base_edges
            && entries_low(axis, layout.edge_capacity, base_edges))
}

// No node below the bound has a run: each mark is 0. Internal.
pub fn no_runs(axis: &[u32], layout: Layout) -> bool
    requires { AxisSized axis.now layout.edge_capacity layout.node_capacity layout.counts }
    ensures { result ≡ all (λ x. ltb (cell axis.now (4 * layout.edge_capacity + 4 * layout.node_capacity) x) 1) (from 0 layout.counts.nodes.bound) }
{
    let marks = 4 * layout.edge_capacity + 4 * layout.node_capacity;
    words_below(&axis[marks..marks + layout.counts.nodes.bound as usize], 1)
}
