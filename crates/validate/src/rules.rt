// The rules of the check, each as a test of a store: of both kinds of slot, or of both directions. Each requires what the rules before it have established.

ghost use Rattle.std.specs.Prelude.{◌≡◌, true};
ghost use Rattle.plain.specs.declared.TraversalDirection.TheVariants.{Outgoing, Incoming};
ghost use Rattle.shape.specs.Laws.Judging.{Structured};
ghost use Rattle.shape.specs.Rules.{rule_1, rule_2, rule_3, rule_4, rule_5, rule_6, rule_7};
ghost use Rattle.shape.specs.Stores.{words};
ghost use Rattle.validate.specs.Rules.{Threaded, runs_of, walks_of};

use crate::flat::lists_flat;
use plain::TraversalDirection;
use shape::Store;
use validate_lists::{runs, walks};
use validate_words::{axes, counts, rings, weights};

// Rule 1: the counts and the lengths of the slices.
pub fn sizes_right(store: &Store) -> bool
    ensures { result ≡ rule_1 (words store.now) }
{
    counts::sizes_right(store.counts, store.lengths())
}

// Rule 2: the live bits of nodes and of edges.
#[tactic(auto, unfolding(shape::specs::Rules::rule_2))]
pub fn live_right(store: &Store) -> bool
    requires { rule_1 (words store.now) ≡ true }
    ensures { result ≡ rule_2 (words store.now) }
{
    counts::live_right(store.live_nodes, store.counts.nodes)
        && counts::live_right(store.live_edges, store.counts.edges)
}

// Rule 3: the ends of both directions, then the weights.
#[tactic(auto, unfolding(shape::specs::Rules::rule_3))]
pub fn ends_right(store: &Store) -> bool
    requires { rule_1 (words store.now) ≡ true }
    ensures { result ≡ rule_3 (words store.now) }
{
    let layout = store.layout();
    axes::ends_right(store.outgoing, layout)
        && axes::ends_right(store.incoming, layout)
        && weights::weights_right(store.lows, store.highs, store.counts.edges.bound as usize)
}

// Rule 4: the compressed index of both directions.
#[tactic(auto, unfolding(shape::specs::Rules::rule_4))]
pub fn index_right(store: &Store) -> bool
    requires { rule_1 (words store.now) ≡ true }
    ensures { result ≡ rule_4 (words store.now) }
{
    let layout = store.layout();
    axes::index_right(store.outgoing, layout) && axes::index_right(store.incoming, layout)
}

// Rule 5: the rings of both directions.
#[tactic(auto, unfolding(shape::specs::Rules::rule_5))]
pub fn rings_right(store: &Store) -> bool
    requires { rule_1 (words store.now) ≡ true }
    ensures { result ≡ rule_5 (words store.now) }
{
    let layout = store.layout();
    rings::rings_right(store.outgoing, layout) && rings::rings_right(store.incoming, layout)
}

// Whether the lists of one direction are quickly seen to be right, by rule 6 and by rule 7; only the yes is promised.
pub fn lists_seen(store: &Store, direction: TraversalDirection) -> bool
    requires { Threaded (words store.now) }
    ensures { result ≡ true → (runs_of (words store.now) direction ≡ true) × (rule_6 (words store.now) ≡ true → walks_of (words store.now) direction ≡ true) }
{
    lists_flat(&store.incidence(direction))
}

// Rule 6: the runs of both directions. Those of a direction whose lists have been seen to be right are not followed: `out` and `back` are what lists_seen has told of each
// direction: two answers, each asked for once here and once in walks_right, so that a type of both would be made and taken apart in one place.
#[tactic(auto, unfolding(shape::specs::Rules::rule_6))]
pub fn runs_right(store: &Store, out: bool, back: bool) -> bool
    requires r1 { rule_1 (words store.now) ≡ true }
    requires out_seen { out ≡ true → runs_of (words store.now) Outgoing ≡ true }
    requires back_seen { back ≡ true → runs_of (words store.now) Incoming ≡ true }
    ensures { result ≡ rule_6 (words store.now) }
{
    (out || runs::runs_right(&store.incidence(TraversalDirection::Outgoing)))
        && (back || runs::runs_right(&store.incidence(TraversalDirection::Incoming)))
}

// Rule 7: the walks of both directions, likewise.
#[tactic(auto, unfolding(shape::specs::Rules::rule_7))]
pub fn walks_right(store: &Store, out: bool, back: bool) -> bool
    requires structured { Structured (words store.now) }
    requires out_seen { out ≡ true → walks_of (words store.now) Outgoing ≡ true }
    requires back_seen { back ≡ true → walks_of (words store.now) Incoming ≡ true }
    ensures { result ≡ rule_7 (words store.now) }
{
    (out || walks::walks_right(&store.incidence(TraversalDirection::Outgoing)))
        && (back || walks::walks_right(&store.incidence(TraversalDirection::Incoming)))
}
