// The check of an image's bytes, before anything is written: the first broken rule of document 01's number 12. Rule 6 is checked by one pass over the joined
// entries of a direction: they are right exactly when they are below m, none comes twice, and their ends do not descend. As in document 01, w is the width of a
// node's number and v that of an edge's.

ghost use Rattle.std.specs.Prelude.{◌-◌, ◌*◌, ◌≡◌, length, eqb};
ghost use Rattle.plain.specs.Bits.{field_at, fields_at};
ghost use Rattle.plain.specs.Image.{broken_image};
ghost use Rattle.plain.specs.Refusals.{image_rule_of};
ghost use Rattle.image_check.specs.Checks.{Filled, Whole, ordered};
ghost use Rattle.image_check.specs.Columns.{Listed, value, values_below, values_ordered};

use crate::columns::RecordField;
use crate::places::{
    COUNT_WIDTH, EDGE_COUNT_START, WEIGHT_WIDTH, edges_start, image_bytes, lists_size, outs_start,
};
use bits::{least_width, read_field};
use marks::{WORDS, mark};
use plain::LIMIT;
use plain::refusals::ImageRule;

// Rule 4: the bits after the last field are 0.
fn padding_clear(bytes: &[u8], size: usize) -> bool
    requires { Filled bytes.now size }
    ensures { result ≡ eqb (field_at bytes.now size (8 * length bytes.now - size)) 0 }
{
    read_field(bytes, size, (8 * bytes.len() - size) as u32) == 0
}

// Rule 5 of one direction: no edge's end is not below n. A loop: tried as a chain, as the weights have it, and with both an image was read three per cent slower.
fn ends_below(ends: RecordField, n: u32) -> bool
    ensures { result ≡ values_below ends.entry n }
{
    for edge in 0..ends.edges {
        if ends.get(edge) >= n {
            return false;
        }
    }
    true
}

// Rule 5 of the weights: no edge's low is above its high.
fn weights_right(lows: RecordField, highs: RecordField) -> bool
    requires { highs.edges ≡ lows.edges }
    ensures { result ≡ values_ordered lows.entry highs.entry }
{
    (0..lows.edges).all(|edge| lows.get(edge) <= highs.get(edge))
}

// Rule 6 of one direction: the entries from bit `list` on, one of each edge, are below the edge count, none comes twice, and their ends do not descend.
fn lists_right(ends: RecordField, list: usize, v: u32) -> bool
    requires { Listed ends list v }
    ensures { result ≡ ordered (value ends.entry) ends.entry.edges (fields_at ends.entry.bytes.now list v ends.entry.edges) }
{
    let mut seen = [0u64; WORDS];
    let mut last: u32 = 0;
    for i in 0..ends.edges {
        let edge = read_field(ends.bytes, list + v as usize * i as usize, v);
        if edge >= ends.edges {
            return false;
        }
        let end = ends.get(edge);
        if end < last {
            return false;
        }
        if !mark(&mut seen, edge as usize) {
            return false;
        }
        last = end;
    }
    true
}

// The first broken one of rules 4 to 6, of bytes whose counts and length are right. A struct of the three would be made by one function, to be taken apart by this one.
fn broken_content(bytes: &[u8], n: u32, m: u32) -> Result<(), ImageRule>
    requires { Whole bytes.now n m }
    ensures { image_rule_of result ≡ broken_image bytes.now }
{
    let w = least_width(n);
    let v = least_width(m);
    let records = edges_start(n);
    let size = lists_size(m);
    let outs = outs_start(n, m);
    let ins = outs + size;
    let sources = RecordField {
        bytes,
        at: records,
        w,
        width: w,
        edges: m,
    };
    let targets = RecordField {
        bytes,
        at: sources.at + w as usize,
        w,
        width: w,
        edges: m,
    };
    let lows = RecordField {
        bytes,
        at: targets.at + w as usize,
        w,
        width: WEIGHT_WIDTH,
        edges: m,
    };
    let highs = RecordField {
        bytes,
        at: lows.at + WEIGHT_WIDTH as usize,
        w,
        width: WEIGHT_WIDTH,
        edges: m,
    };
    if !padding_clear(bytes, ins + size) {
        return Err(ImageRule::Padding);
    }
    if !ends_below(sources, n) {
        return Err(ImageRule::Records);
    }
    if !ends_below(targets, n) {
        return Err(ImageRule::Records);
    }
    if !weights_right(lows, highs) {
        return Err(ImageRule::Records);
    }
    if !lists_right(sources, outs, v) {
        return Err(ImageRule::Lists);
    }
    if !lists_right(targets, ins, v) {
        return Err(ImageRule::Lists);
    }
    Ok(())
}

// The first broken rule of an image's bytes; where there is none they are an image. Any bytes may be handed in.
pub fn first_broken(bytes: &[u8]) -> Result<(), ImageRule>
    ensures { image_rule_of result ≡ broken_image bytes.now }
{
    if bytes.len() < 4 {
        return Err(ImageRule::Counts);
    }
    let n = read_field(bytes, 0, COUNT_WIDTH);
    let m = read_field(bytes, EDGE_COUNT_START, COUNT_WIDTH);
    if n > LIMIT || m > LIMIT {
        return Err(ImageRule::Limits);
    }
    if bytes.len() != image_bytes(n, m) {
        return Err(ImageRule::Length);
    }
    broken_content(bytes, n, m)
}
