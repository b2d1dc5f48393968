// A recorded call and its arguments, as crate replay_main lists them: what a line stands for.

use crate::Line;
use memory::Device;
use plain::TraversalDirection;

// A call that leaves the store as it is.
#[derive(Clone, Copy)]
pub enum Read {
    // Out- or in-list of a node, with the words lent.
    Walk {
        direction: TraversalDirection,
        node: u32,
        room: u32,
    },
    // The live nodes, with the words lent.
    NodeIds {
        room: u32,
    },
    EdgeIds {
        room: u32,
    },
    NodePayload {
        node: u32,
    },
    EdgeRecord {
        edge: u32,
    },
    LiveEdgeRecord {
        edge: u32,
    },
    // Bounds, counts, empty and compact.
    Whole,
    Degree {
        direction: TraversalDirection,
        node: u32,
    },
    Find {
        first: u32,
        second: u32,
    },
    // Writing the image, with the words lent for the work and the bytes lent.
    WriteImage {
        work: u32,
        bytes: u32,
    },
    Total {
        direction: TraversalDirection,
        node: u32,
    },
    // The nearest lot, with the words lent for the work and for the chain.
    Nearest {
        first: u32,
        second: u32,
        work: u32,
        chain: u32,
    },
}

#[derive(Clone, Copy)]
pub enum Call {
    // A fresh store of these capacities on a device.
    Fresh {
        device: Device,
        nodes: u32,
        edges: u32,
    },
    // A strip of so many words, with the words lent for the answers and the lines that follow.
    Strip {
        words: u32,
        answers: u32,
        lines: u32,
    },
    // A compaction, with the words lent for each map and for the work.
    Compact {
        node_map: u32,
        edge_map: u32,
        work: u32,
    },
    // Reading an image of so many bytes on a device, with the lines that follow.
    ReadImage {
        device: Device,
        bytes: u32,
        lines: u32,
    },
    // The store joined with itself, with the words lent for each of the four maps.
    JoinWithItself {
        maps: u32,
    },
    Read(Read),
}

// The recorded files hold numbers, so that they become calls here, and nowhere else.
impl From<Line> for Call {
    fn from(line: Line) -> Call {
        let [kind, first, second, third, fourth] = line;
        match kind {
            0 => Call::Fresh {
                device: Device::Box,
                nodes: first,
                edges: second,
            },
            1 => Call::Strip {
                words: first,
                answers: second,
                lines: third,
            },
            2 => Call::Read(Read::Walk {
                direction: TraversalDirection::Outgoing,
                node: first,
                room: second,
            }),
            3 => Call::Read(Read::Walk {
                direction: TraversalDirection::Incoming,
                node: first,
                room: second,
            }),
            4 => Call::Read(Read::NodeIds { room: second }),
            5 => Call::Read(Read::EdgeIds { room: second }),
            6 => Call::Read(Read::NodePayload { node: first }),
            7 => Call::Read(Read::EdgeRecord { edge: first }),
            8 => Call::Read(Read::LiveEdgeRecord { edge: first }),
            9 => Call::Read(Read::Whole),
            10 => Call::Read(Read::Degree {
                direction: TraversalDirection::Outgoing,
                node: first,
            }),
            11 => Call::Read(Read::Degree {
                direction: TraversalDirection::Incoming,
                node: first,
            }),
            12 => Call::Compact {
                node_map: first,
                edge_map: second,
                work: third,
            },
            14 => Call::Read(Read::WriteImage {
                work: first,
                bytes: second,
            }),
            15 => Call::ReadImage {
                device: Device::Box,
                bytes: first,
                lines: second,
            },
            16 => Call::Read(Read::Total {
                direction: TraversalDirection::Outgoing,
                node: first,
            }),
            17 => Call::Read(Read::Total {
                direction: TraversalDirection::Incoming,
                node: first,
            }),
            18 => Call::Fresh {
                device: Device::Skid,
                nodes: first,
                edges: second,
            },
            19 => Call::ReadImage {
                device: Device::Skid,
                bytes: first,
                lines: second,
            },
            20 => Call::Read(Read::Nearest {
                first,
                second,
                work: third,
                chain: fourth,
            }),
            22 => Call::JoinWithItself { maps: first },
            // 13; and, as the program has always read it, any other number.
            _ => Call::Read(Read::Find { first, second }),
        }
    }
}
