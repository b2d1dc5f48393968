// The lengths of a store's memory, judged as numbers: capacities within a device's limits, the words that each slice needs, and the first slice that is too short.
// Making a store and reading an image are refused by these functions alone, so that no length is worked out twice.

#![tactic(auto)]

ghost use Rattle.std.specs.Prelude.{ℕ, ◌≡◌, ◌≤◌, ◌<◌, MatchResult};
ghost use Rattle.plain.specs.Answers.{done_of};
ghost use Rattle.plain.specs.Refusals.{number_of, value_of, image_rule_number};
ghost use Rattle.plain.specs.Memory.{first_short, other_slices, live_words, axis_length};
ghost use Rattle.plain.specs.Calls.{fresh, short_answer, reading};
ghost use Rattle.memory.specs.Lengths.{caps, measured, above_number, device_of, limited, Taken, Few};

use plain::LIMIT;
use plain::refusals::{ImageRule, Refusal};

// The lengths of a store's slices, in parameter order. Those of the nodes' payloads and of the edges' lows are the capacities.
#[derive(Clone, Copy)]
pub struct Lengths {
    pub nodes: usize,
    pub lows: usize,
    pub highs: usize,
    pub live_nodes: usize,
    pub live_edges: usize,
    pub outgoing: usize,
    pub incoming: usize,
}

// How a device refuses what is above its limits.
#[derive(Clone, Copy, PartialEq, Eq, Debug)]
pub enum Above {
    // By AboveLimit, as a box does.
    Limit,
    // By AboveSkid, as the skid does.
    Skid,
}

// The most nodes and edges that a device takes, and how it refuses more.
#[derive(Clone, Copy, PartialEq, Eq, Debug)]
pub struct Limits {
    pub nodes: u32,
    pub edges: u32,
    pub above: Above,
}

// The devices that run the library.
#[derive(Clone, Copy, PartialEq, Eq, Debug)]
pub enum Device {
    // A box.
    Box,
    // "The skid that washes tanks".
    Skid,
}

impl Device {
    pub fn limits(self) -> Limits
        ensures { limited result ≡ device_of self }
    {
        match self {
            Device::Box => Limits::BOX,
            Device::Skid => Limits::SKID,
        }
    }
}

impl Limits {
    // "capacity above 32,768 | 13"
    pub const BOX: Limits = Limits {
        nodes: LIMIT,
        edges: LIMIT,
        above: Above::Limit,
    };

    // "64 lots and 128 transfers", "It refuses with 15"
    pub const SKID: Limits = Limits {
        nodes: 64,
        edges: 128,
        above: Above::Skid,
    };

    // How it refuses so many.
    fn refusal(self, asked: usize) -> Refusal
        ensures number { number_of result ≡ above_number self.above }
        ensures value { value_of result ≡ asked }
    {
        match self.above {
            Above::Limit => Refusal::AboveLimit(asked as u64),
            Above::Skid => Refusal::AboveSkid(asked as u64),
        }
    }

    // Refuses more nodes or edges than these, nodes before edges, with the number asked for.
    #[tactic(auto, unfolding(plain::specs::Calls::within))]
    pub fn take(self, nodes: usize, edges: usize) -> Result<(), Refusal>
        ensures { Taken (limited self) (caps nodes edges) result }
    {
        if (self.nodes as usize) < nodes {
            return Err(self.refusal(nodes));
        }
        if (self.edges as usize) < edges {
            return Err(self.refusal(edges));
        }
        Ok(())
    }
}

// The live words of so many slots.
pub fn live_words(slots: usize) -> usize
    ensures { result ≡ live_words slots }
{
    slots.div_ceil(64)
}

// The words of an axis.
pub fn axis_length(node_capacity: usize, edge_capacity: usize) -> usize
    requires { Few node_capacity edge_capacity }
    ensures { result ≡ axis_length (caps node_capacity edge_capacity) }
{
    4 * edge_capacity + 6 * node_capacity + 1
}

// Refuses a slice that is too short, with the length needed.
pub fn need(needs: usize, has: usize) -> Result<(), Refusal>
    ensures { MatchResult result (λ _. needs ≤ has) (λ refusal. (has < needs) × (refusal ≡ Refusal.TooShort needs)) }
{
    if has < needs {
        return Err(Refusal::TooShort(needs as u64));
    }
    Ok(())
}

// Refuses the first slice beside those two that is too short.
#[tactic(auto, unfolding(plain::specs::Memory::first_short))]
fn check_others(lengths: Lengths) -> Result<(), Refusal>
    requires { Few lengths.nodes lengths.lows }
    ensures { done_of result ≡ short_answer (first_short (other_slices (measured lengths))) }
{
    let axis = axis_length(lengths.nodes, lengths.lows);
    need(lengths.lows, lengths.highs)?;
    need(live_words(lengths.nodes), lengths.live_nodes)?;
    need(live_words(lengths.lows), lengths.live_edges)?;
    need(axis, lengths.outgoing)?;
    need(axis, lengths.incoming)
}

// Refuses to read an image into memory of these lengths, by the two counts that it asks for or the first rule that it breaks: the limits of the memory, the rule, the limits
// of the image, a slice too short.
#[tactic(auto, unfolding(plain::specs::Calls::reading, plain::specs::Calls::within, plain::specs::Memory::first_short))]
pub fn check_reading(
    limits: Limits,
    lengths: Lengths,
    asked: Result<(u32, u32), ImageRule>,
) -> Result<(), Refusal>
    ensures { MatchResult asked
        (λ counts. done_of result ≡ reading (limited limits) (measured lengths) 0 counts.0 counts.1)
        (λ rule. (nodes edges : ℕ) → done_of result ≡ reading (limited limits) (measured lengths) (image_rule_number rule) nodes edges) }
{
    limits.take(lengths.nodes, lengths.lows)?;
    let (count_nodes, count_edges) = asked?;
    let asked_nodes = count_nodes as usize;
    let asked_edges = count_edges as usize;
    limits.take(asked_nodes, asked_edges)?;
    need(asked_nodes, lengths.nodes)?;
    need(asked_edges, lengths.lows)?;
    check_others(lengths)
}

// Refuses to make a store in memory of these lengths: the limits, then a slice too short.
#[tactic(auto, unfolding(plain::specs::Calls::fresh, plain::specs::Calls::within))]
pub fn check_fresh(limits: Limits, lengths: Lengths) -> Result<(), Refusal>
    ensures { done_of result ≡ fresh (limited limits) (measured lengths) }
{
    limits.take(lengths.nodes, lengths.lows)?;
    check_others(lengths)
}
