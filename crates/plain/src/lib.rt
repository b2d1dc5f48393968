// What the program and the definitions share: slot numbers and limits, the direction of an axis, an operation, the counts of a
// store and the answers of its calls. The definitions of document 01 over these types stand in specs/.

#![tactic(auto)]

ghost use Rattle.std.specs.Prelude.{◌≡◌};
ghost use Rattle.plain.specs.Plain.{opposite};
ghost use Rattle.plain.specs.Based.{based};

pub mod answers;
pub mod numbers;
mod printed;
pub mod refusals;

// "None" where the Rust has an `Option<Id>`.
pub const NONE: u32 = 4294967295;

// The most node slots, and the most edge slots, that a store may have.
pub const LIMIT: u32 = 32768;

// The words of an operation in a strip: code, first, second, low, high.
pub const OPERATION_WORDS: usize = 5;

// Direction in which a walk follows edges.
#[derive(Clone, Copy)]
pub enum TraversalDirection {
    // From source to target: an edge is in the list of its source.
    Outgoing,
    // From target to source: an edge is in the list of its target.
    Incoming,
}

impl TraversalDirection {
    pub fn opposite(self) -> TraversalDirection
        ensures { result ≡ opposite self }
    {
        match self {
            TraversalDirection::Outgoing => TraversalDirection::Incoming,
            TraversalDirection::Incoming => TraversalDirection::Outgoing,
        }
    }
}

// The payload of an edge: its lowest and its highest weight.
#[repr(C)]
#[derive(Clone, Copy)]
pub struct EdgePayload {
    pub low: u32,
    pub high: u32,
}

// One entry of a strip.
#[derive(Clone, Copy)]
pub enum Operation {
    AddNode {
        payload: u32,
    },
    AddEdge {
        source: u32,
        target: u32,
        payload: EdgePayload,
    },
    RemoveEdge {
        edge: u32,
    },
    RemoveNode {
        node: u32,
    },
    // Makes `node` the source of the edge (Outgoing) or its target (Incoming).
    Redirect {
        direction: TraversalDirection,
        edge: u32,
        node: u32,
    },
    // Moves the whole out-list (Outgoing) or in-list (Incoming) of `old` to `new`.
    Move {
        direction: TraversalDirection,
        old: u32,
        new: u32,
    },
    SetPayload {
        edge: u32,
        payload: EdgePayload,
    },
    // An unknown code, or an unused word that is not 0.
    Unknown,
}

// The counts of one kind of slot: all slots, those that the compressed base holds, those that are live.
#[repr(C)]
#[derive(Clone, Copy, Default)]
pub struct Slots {
    pub bound: u32,
    pub base: u32,
    pub live: u32,
}

impl Slots {
    // Of slots that are all live and all in the base.
    pub fn all_based(count: u32) -> Slots
        ensures { result ≡ based count }
    {
        Slots {
            bound: count,
            base: count,
            live: count,
        }
    }
}

// The counts of a store, by value beside its seven slices. Any values are legal input: the check judges them.
#[repr(C)]
#[derive(Clone, Copy, Default)]
pub struct Counts {
    pub nodes: Slots,
    pub edges: Slots,
}

// The record of an edge: its ends and its payload.
#[derive(Clone, Copy)]
pub struct EdgeRecord {
    pub source: u32,
    pub target: u32,
    pub payload: EdgePayload,
}

// The sum of the lowest and the sum of the highest weights of some edges.
#[repr(C)]
#[derive(Clone, Copy)]
pub struct Sums {
    pub low: u64,
    pub high: u64,
}

// What a call answers: the number and the value of document 01's table. The value is wide enough for any length or capacity.
#[repr(C)]
#[derive(Clone, Copy)]
pub struct Answer {
    pub number: u32,
    pub value: u64,
}

// What a call answers that makes or changes a store: number and value, and the counts afterwards.
#[repr(C)]
#[derive(Clone, Copy)]
pub struct Changed {
    pub number: u32,
    pub value: u64,
    pub counts: Counts,
}

// What reading a record answers: the edge's ends and payload beside number and value; all three are 0 where it is refused.
#[repr(C)]
#[derive(Clone, Copy)]
pub struct Record {
    pub number: u32,
    pub value: u64,
    pub source: u32,
    pub target: u32,
    pub payload: EdgePayload,
}

// What a total answers: the sums of the lows and of the highs of a list beside number and value; both are 0 where it is refused.
#[repr(C)]
#[derive(Clone, Copy)]
pub struct Total {
    pub number: u32,
    pub value: u64,
    pub low: u64,
    pub high: u64,
}
