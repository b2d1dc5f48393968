// One field of each edge's record in an image, read by the edge's number.

ghost use Rattle.image_check.specs.Checks.{Column as Stands};

use crate::places::EDGE_PAYLOAD_WIDTH;
use bits::read_field;

// A field of `width` bits: that of the first edge stands at bit `at`, and a node's number takes `w` bits in the records between.
#[derive(Clone, Copy)]
pub struct RecordField<'a> {
    pub bytes: &'a [u8],
    pub at: usize,
    pub w: u32,
    pub width: u32,
    pub edges: u32,
    ghost stands: { Stands bytes.now at w width edges },
}

impl RecordField<'_> {
    ghost use Rattle.std.specs.Prelude.{◌<◌, ◌≡◌};
    ghost use Rattle.image_check.specs.Checks.{field_in};

    // The field of an edge's record.
    pub fn get(self, edge: u32) -> u32
        requires { edge < self.edges }
        ensures { result ≡ field_in self.entry.bytes.now self.entry.at self.entry.w self.entry.width edge }
    {
        let record = 2 * self.w as usize + EDGE_PAYLOAD_WIDTH as usize;
        read_field(self.bytes, self.at + record * edge as usize, self.width)
    }
}
