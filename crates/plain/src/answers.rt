// What C is answered, from what a call came to: a number and a value, and what stands beside them.

ghost use Rattle.std.specs.Prelude.{ℕ, ◌≡◌, cond, unwrap_or};
ghost use Rattle.plain.specs.Numbers.{NONE as none};
ghost use Rattle.plain.specs.Answers.{answer_by, edge_record_of, sums_total_of};

use crate::refusals::Refusal;
use crate::{Answer, EdgePayload, EdgeRecord, NONE, Record, Sums, Total, numbers};

// What a call that is done may answer, as the value for C: "1 or 0 for a yes or no, else 0".
pub trait Value: Drop {
    ghost value_is: { Self → ℕ };

    fn value(self) -> u64
        ensures { result ≡ value_is self };
}

impl Value for u32 {
    ghost value_is = { λ n. n };

    fn value(self) -> u64 {
        u64::from(self)
    }
}

impl Value for u64 {
    ghost value_is = { λ n. n };

    fn value(self) -> u64 {
        self
    }
}

impl Value for usize {
    ghost value_is = { λ n. n };

    fn value(self) -> u64 {
        self as u64
    }
}

// What is found, NONE where nothing is.
impl Value for Option<u32> {
    ghost value_is = { λ found. unwrap_or found none };

    fn value(self) -> u64 {
        u64::from(self.unwrap_or(NONE))
    }
}

impl Value for bool {
    ghost value_is = { λ b. cond b 1 0 };

    fn value(self) -> u64 {
        u64::from(self)
    }
}

impl Value for () {
    ghost value_is = { λ _. 0 };

    fn value(self) -> u64 {
        0
    }
}

impl<T: Value> From<Result<T, Refusal>> for Answer {
    ghost from_gives = { λ came answer. answer ≡ answer_by T.value_is came };

    fn from(came: Result<T, Refusal>) -> Answer {
        match came {
            Ok(value) => Answer {
                number: numbers::DONE,
                value: value.value(),
            },
            Err(refusal) => Answer {
                number: refusal.number(),
                value: refusal.value(),
            },
        }
    }
}

// "If refused, all three are 0."
impl From<Result<EdgeRecord, Refusal>> for Record {
    ghost from_gives = { λ came answer. answer ≡ edge_record_of came };

    fn from(came: Result<EdgeRecord, Refusal>) -> Record {
        match came {
            Ok(edge) => Record {
                number: numbers::DONE,
                value: 0,
                source: edge.source,
                target: edge.target,
                payload: edge.payload,
            },
            Err(refusal) => Record {
                number: refusal.number(),
                value: refusal.value(),
                source: 0,
                target: 0,
                payload: EdgePayload { low: 0, high: 0 },
            },
        }
    }
}

// "With both sums 0."
impl From<Result<Sums, Refusal>> for Total {
    ghost from_gives = { λ came answer. answer ≡ sums_total_of came };

    fn from(came: Result<Sums, Refusal>) -> Total {
        match came {
            Ok(sums) => Total {
                number: numbers::DONE,
                value: 0,
                low: sums.low,
                high: sums.high,
            },
            Err(refusal) => Total {
                number: refusal.number(),
                value: refusal.value(),
                low: 0,
                high: 0,
            },
        }
    }
}
