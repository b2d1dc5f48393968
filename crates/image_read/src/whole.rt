// An image that is right: its bytes, and its two counts.

ghost use Rattle.std.specs.Prelude.{◌≡◌};
ghost use Rattle.plain.specs.Image.{broken_image, nodes_in, edges_in};

use bits::read_field;
use image_check::places::{COUNT_WIDTH, EDGE_COUNT_START};

// Bytes that are an image, of so many nodes and edges.
#[derive(Clone, Copy)]
pub struct Image<'a> {
    pub bytes: &'a [u8],
    pub nodes: u32,
    pub edges: u32,
    ghost right: { broken_image bytes.now ≡ 0 },
    ghost many_nodes: { nodes ≡ nodes_in bytes.now },
    ghost many_edges: { edges ≡ edges_in bytes.now },
}

impl<'a> Image<'a> {
    // Bytes of which no rule is broken.
    pub fn new(bytes: &'a [u8]) -> Image<'a>
        requires { broken_image bytes.now ≡ 0 }
        ensures { result.bytes.now ≡ bytes.now }
    {
        Image {
            bytes,
            nodes: read_field(bytes, 0, COUNT_WIDTH),
            edges: read_field(bytes, EDGE_COUNT_START, COUNT_WIDTH),
        }
    }
}
