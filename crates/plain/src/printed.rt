// Answers as the recorded calls print them: number and value, and what stands beside them, a space between two.

use crate::{Answer, EdgePayload, Record, Total};
use std::fmt;

impl fmt::Display for Answer {
    fn fmt<W: fmt::Write>(&self, f: &mut fmt::Formatter<W>) -> fmt::Result {
        let number = self.number;
        let value = self.value;
        write!(f, "{number} {value}")
    }
}

impl fmt::Display for Record {
    fn fmt<W: fmt::Write>(&self, f: &mut fmt::Formatter<W>) -> fmt::Result {
        let Record {
            number,
            value,
            source,
            target,
            payload: EdgePayload { low, high },
        } = *self;
        write!(f, "{number} {value} {source} {target} {low} {high}")
    }
}

impl fmt::Display for Total {
    fn fmt<W: fmt::Write>(&self, f: &mut fmt::Formatter<W>) -> fmt::Result {
        let Total {
            number,
            value,
            low,
            high,
        } = *self;
        write!(f, "{number} {value} {low} {high}")
    }
}
