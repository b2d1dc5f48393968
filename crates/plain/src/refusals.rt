// Why a call is refused, with the value that is answered then: the table of document 01, and of document 02. For C a refusal is a number and a value.

ghost use Rattle.std.specs.Prelude.{◌≡◌};
ghost use Rattle.plain.specs.Refusals.{rule_number, image_rule_number, number_of, value_of};

use crate::{Answer, NONE, numbers};

// The rules of the check, 1 to 7.
#[derive(Clone, Copy, PartialEq, Eq, Debug)]
pub enum Rule {
    // Counts and lengths.
    Sizes = 1,
    // Live bits.
    Live = 2,
    // Ends and weights.
    Ends = 3,
    // The compressed index.
    Index = 4,
    Rings = 5,
    Runs = 6,
    Walks = 7,
}

impl Rule {
    pub fn number(self) -> u32
        ensures { result ≡ rule_number self }
    {
        self as u32
    }
}

// The rules of an image, 1 to 6.
#[derive(Clone, Copy, PartialEq, Eq, Debug)]
pub enum ImageRule {
    // Fewer bytes than both counts take.
    Counts = 1,
    // A count above the limit.
    Limits = 2,
    // Another length than the counts ask for.
    Length = 3,
    // A bit after the last field.
    Padding = 4,
    // An end that is no node, or a low above its high.
    Records = 5,
    // An entry that is no edge, is there twice or is out of order.
    Lists = 6,
}

impl ImageRule {
    pub fn number(self) -> u32
        ensures { result ≡ image_rule_number self }
    {
        self as u32
    }
}

#[derive(Clone, Copy, PartialEq, Eq, Debug)]
pub enum Refusal {
    // Words are no store: the first broken rule.
    NoStore(Rule),
    // A lent slice too short: the length needed.
    TooShort(u64),
    // Strip not a multiple of five: its length.
    Ragged(u64),
    // Unknown code or unused word not 0.
    UnknownCode,
    // Node at or above bound.
    OutOfRangeNode,
    RemovedNode,
    // Edge at or above bound.
    OutOfRangeEdge,
    RemovedEdge,
    // Move onto itself.
    OntoItself,
    // Bound equals capacity.
    Full,
    // Image unreadable: its first broken rule.
    Unreadable(ImageRule),
    // Capacity above 32,768: the capacity.
    AboveLimit(u64),
    // No chain from one lot to another.
    Unreachable,
    // More lots or transfers than the skid takes: how many.
    AboveSkid(u64),
    // A low above its high.
    Inverted,
}

impl Refusal {
    // The number of the table.
    pub fn number(self) -> u32
        ensures { result ≡ number_of self }
    {
        match self {
            Refusal::NoStore(_) => numbers::NO_STORE,
            Refusal::TooShort(_) => numbers::TOO_SHORT,
            Refusal::Ragged(_) => numbers::RAGGED,
            Refusal::UnknownCode => numbers::UNKNOWN_CODE,
            Refusal::OutOfRangeNode => numbers::OUT_OF_RANGE_NODE,
            Refusal::RemovedNode => numbers::REMOVED_NODE,
            Refusal::OutOfRangeEdge => numbers::OUT_OF_RANGE_EDGE,
            Refusal::RemovedEdge => numbers::REMOVED_EDGE,
            Refusal::OntoItself => numbers::ONTO_ITSELF,
            Refusal::Full => numbers::FULL,
            Refusal::Unreadable(_) => numbers::UNREADABLE,
            Refusal::AboveLimit(_) => numbers::ABOVE_LIMIT,
            Refusal::Unreachable => numbers::UNREACHABLE,
            Refusal::AboveSkid(_) => numbers::ABOVE_SKID,
            Refusal::Inverted => numbers::INVERTED,
        }
    }

    // The value beside it, NONE where the table has none.
    pub fn value(self) -> u64
        ensures { result ≡ value_of self }
    {
        match self {
            Refusal::NoStore(rule) => u64::from(rule.number()),
            Refusal::Unreadable(rule) => u64::from(rule.number()),
            Refusal::TooShort(value)
            | Refusal::Ragged(value)
            | Refusal::AboveLimit(value)
            | Refusal::AboveSkid(value) => value,
            _ => u64::from(NONE),
        }
    }
}

impl From<Rule> for Refusal {
    ghost use Rattle.std.specs.Prelude.{◌≡◌};
    ghost use Rattle.plain.specs.declared.refusals.Refusal.TheVariants.{NoStore};

    ghost from_gives = { λ rule refusal. refusal ≡ NoStore rule };

    fn from(broken: Rule) -> Refusal {
        Refusal::NoStore(broken)
    }
}

impl From<ImageRule> for Refusal {
    ghost use Rattle.std.specs.Prelude.{◌≡◌};
    ghost use Rattle.plain.specs.declared.refusals.Refusal.TheVariants.{Unreadable};

    ghost from_gives = { λ rule refusal. refusal ≡ Unreadable rule };

    fn from(rule: ImageRule) -> Refusal {
        Refusal::Unreadable(rule)
    }
}
