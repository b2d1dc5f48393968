// Writing an image: the payloads of live nodes, the records of live edges and the entries of lists as bits, all by new numbers, and the image of any store. Document
// 01, "The image"; document 02, No. 2: "Writing an image now answers for every store, and gives what compaction followed by writing would give, while the store keeps
// every word."

#![tactic(auto)]

mod ranking;

ghost use Rattle.std.specs.Prelude.{◌≤◌, ◌≡◌, map, length};
ghost use Rattle.plain.specs.Numbers.{LIMIT};
ghost use Rattle.plain.specs.Lists.{written};
ghost use Rattle.plain.specs.Compaction.{rank, survivors};
ghost use Rattle.plain.specs.Bits.{least_width, row};
ghost use Rattle.plain.specs.Answers.{answer_of};
ghost use Rattle.plain.specs.Image.{edge_bits, image, node_payload_width};
ghost use Rattle.liveness.specs.Flags.{live_flags};
ghost use Rattle.shape.specs.Shape.{edge_live, lists};
ghost use Rattle.shape.specs.Stores.{words};
ghost use Rattle.bits.specs.Penned.{Written};
ghost use Rattle.image_write.specs.Calls.{WriteOf};
ghost use Rattle.image_write.specs.Writing.{
  CountsFit,
  NodesFit,
  RecordFits,
  EdgeFits,
  EdgesFit,
  EntriesFit,
  SlotsFit,
  ListsFit,
  ImageFits,
  live_payloads,
  record_bits,
  written_record,
  ranked_record,
  live_records,
  count_bits,
  slot_bits,
};

use crate::ranking::Numbering;
use bits::pen::Writer;
use bits::raise;
use image_check::places::{COUNT_WIDTH, NODE_PAYLOAD_WIDTH, WEIGHT_WIDTH, image_bytes};
use liveness::live_slots::LiveSlots;
use memory::need;
use plain::EdgeRecord;
use plain::refusals::Refusal;
use shape::Store;
use survivors::lists::write_both;
use validate::judging::check_store;

// The words of live bits that the most slots take.
const LIVE_WORDS: usize = 512;

// Writes the two counts, the first bits of an image, as one value. Internal.
fn write_counts(out: &mut Writer, nodes: u32, edges: u32)
    requires { CountsFit out.old nodes edges }
    ensures { Written out.old (count_bits nodes edges) out.new }
{
    let both = raise(u64::from(nodes), COUNT_WIDTH) + u64::from(edges);
    out.put(2 * COUNT_WIDTH, both);
}

// Writes the payloads of the live nodes in slot order. Internal: they have room.
fn write_nodes(out: &mut Writer, store: &Store)
    requires { let w = words store.now in NodesFit out.old w.nodes w.live_nodes w.counts.nodes.bound }
    ensures { let w = words store.now in Written out.old (row node_payload_width (live_payloads w.nodes w.live_nodes w.counts.nodes.bound)) out.new }
{
    let bound = store.counts.nodes.bound as usize;
    for node in LiveSlots::new(store.live_nodes, bound) {
        out.put(NODE_PAYLOAD_WIDTH, u64::from(store.nodes[node]));
    }
}

// Writes an edge's ends, in `width` bits each, and its payload: its low, then its high. Internal.
fn write_record(out: &mut Writer, width: u32, edge: EdgeRecord)
    requires { RecordFits out.old width edge.source edge.target }
    ensures { Written out.old (record_bits width (written_record edge)) out.new }
{
    let ends = raise(u64::from(edge.source), width) + u64::from(edge.target);
    let payload = edge.payload;
    out.put(2 * width, ends);
    out.put(WEIGHT_WIDTH, u64::from(payload.low));
    out.put(WEIGHT_WIDTH, u64::from(payload.high));
}

// Writes the record of a live edge, its ends by their new numbers. Internal.
fn write_edge(out: &mut Writer, nodes: &Numbering, edge: EdgeRecord)
    requires { EdgeFits out.old nodes.now.width nodes.now.live.now nodes.now.slots edge.source edge.target }
    ensures { Written out.old
        (record_bits nodes.now.width (ranked_record nodes.now.live.now nodes.now.slots edge.source edge.target edge.payload)) out.new }
{
    let numbered = EdgeRecord {
        source: nodes.new_number(edge.source),
        target: nodes.new_number(edge.target),
        payload: edge.payload,
    };
    write_record(out, nodes.width, numbered);
}

// Writes the records of the live edges in slot order. Internal.
fn write_edges(out: &mut Writer, nodes: &Numbering, store: &Store)
    requires { EdgesFit out.old nodes.now.width nodes.now.live.now nodes.now.slots (words store.now) }
    ensures { Written out.old (edge_bits nodes.now.width (live_records nodes.now.live.now nodes.now.slots (words store.now))) out.new }
{
    let bound = store.counts.edges.bound as usize;
    for e in LiveSlots::new(store.live_edges, bound) {
        write_edge(out, nodes, store.edge_at(e));
    }
}

// Writes entries of lists by their new numbers, one after the other. Internal.
fn write_entries(out: &mut Writer, edges: &Numbering, entries: &[u32])
    requires { EntriesFit out.old edges.now.width edges.now.live.now edges.now.slots entries.now }
    ensures { Written out.old (row edges.now.width (map (rank (live_flags edges.now.live.now edges.now.slots)) entries.now)) out.new }
{
    for entry in entries {
        out.put(edges.width, u64::from(edges.new_number(*entry)));
    }
}

// Writes the counts, the nodes' payloads and the edges' records of what is live in a store. Internal.
fn write_slots(out: &mut Writer, store: &Store)
    requires { SlotsFit out.old (words store.now) }
    ensures { Written out.old (slot_bits (least_width store.now.counts.nodes.live) (survivors (lists (words store.now)))) out.new }
{
    let counts = store.counts;
    // No heap: a fixed array.
    let mut ranks: [u32; LIVE_WORDS] = [0; LIVE_WORDS];
    let nodes = Numbering::new(store.live_nodes, counts.nodes, &mut ranks);
    write_counts(out, counts.nodes.live, counts.edges.live);
    write_nodes(out, store);
    write_edges(out, &nodes, store);
}

// Writes the joined lists of both directions. Internal.
fn write_lists(out: &mut Writer, store: &Store, entries: &[u32])
    requires { ListsFit out.old (least_width store.now.counts.edges.live) (words store.now) entries.now }
    ensures { Written out.old (row (least_width store.now.counts.edges.live) (map (rank (edge_live (words store.now))) entries.now)) out.new }
{
    // No heap: a fixed array.
    let mut ranks: [u32; LIVE_WORDS] = [0; LIVE_WORDS];
    let edges = Numbering::new(store.live_edges, store.counts.edges, &mut ranks);
    write_entries(out, &edges, entries);
}

// Writes the image of what is live in a store to the start of `bytes`; the work slice holds the lists of both directions by old numbers. Internal: there is room.
fn write_survivors(store: &Store, work: &[u32], bytes: &mut [u8])
    requires { ImageFits (words store.now) work.now bytes.old }
    ensures { bytes.new ≡ written (image (survivors (lists (words store.now)))) bytes.old }
{
    let count = 2 * store.counts.edges.live as usize;
    let mut out = Writer::new(bytes);
    write_slots(&mut out, store);
    write_lists(&mut out, store, &work[..count]);
    out.finish();
}

// The image of the store, into `bytes`: "1; 2 for the work slice, twice the live transfer count; 2 for the image's slice". The work slice takes the lists of both
// directions, and is "left free afterwards". Its length in bytes where it is written.
pub fn write_image(store: &Store, work: &mut [u32], bytes: &mut [u8]) -> Result<usize, Refusal>
    ensures { WriteOf (words store.now) work.old bytes.old (answer_of result) work.new bytes.new }
{
    check_store(store)?;
    let counts = store.counts;
    let listed = 2 * counts.edges.live as usize;
    need(listed, work.len())?;
    let needed = image_bytes(counts.nodes.live, counts.edges.live);
    need(needed, bytes.len())?;
    write_both(store, work);
    write_survivors(store, work, bytes);
    Ok(needed)
}
