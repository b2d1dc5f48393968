// Fields of bits in lent bytes, most significant bit first: the least width of a count, and reading a field at a bit; writing is by the pen. All functions are
// internal: the field's room is required. What a field is stands in crate `plain`, specs/Bits.antt.

#![tactic(auto)]

pub mod pen;

ghost use Rattle.std.specs.Prelude.{◌+◌, ◌*◌, ◌/◌, ◌%◌, ◌^◌, ◌<◌, ◌≤◌, ◌≡◌, length};
ghost use Rattle.plain.specs.Numbers.{LIMIT};
ghost use Rattle.plain.specs.Bits.{field_at, least_width};
ghost use Rattle.bits.specs.Fields.{Room};

// The width of a lot number, or of a transfer number, by how many there are: the weighing inspector's sheet, line by line. It stays a table, as the documents ask for it
// in the sheet's form.
pub fn least_width(n: u32) -> u32
    requires { n ≤ LIMIT }
    ensures { result ≡ least_width n }
{
    match n {
        0..=1 => 0,
        2 => 1,
        3..=4 => 2,
        5..=8 => 3,
        9..=16 => 4,
        17..=32 => 5,
        33..=64 => 6,
        65..=128 => 7,
        129..=256 => 8,
        257..=512 => 9,
        513..=1024 => 10,
        1025..=2048 => 11,
        2049..=4096 => 12,
        4097..=8192 => 13,
        8193..=16384 => 14,
        _ => 15,
    }
}

// The bits of x from bit `below` up, `width` of them.
pub fn cut(x: u64, below: u32, width: u32) -> u64
    requires { (below < 64) × (width < 64) }
    ensures { result ≡ x / 2 ^ below % 2 ^ width }
{
    (x >> below) & ((1u64 << width) - 1)
}

// The number x with zero bits after it.
pub fn raise(x: u64, zeros: u32) -> u64
    requires { (zeros < 64) × (x * 2 ^ zeros < 2 ^ 64) }
    ensures { result ≡ x * 2 ^ zeros }
{
    x << zeros
}

// A field out of the bytes that it lies in: for the last bytes, where a window of eight does not fit.
fn read_bytewise(bytes: &[u8], position: usize, width: u32) -> u32
    requires { Room bytes.now position width }
    ensures { result ≡ field_at bytes.now position width }
{
    let start = position / 8;
    let end = position + width as usize;
    let mut window: u64 = 0;
    for byte in &bytes[start..end.div_ceil(8)] {
        window = raise(window, 8) + u64::from(*byte);
    }
    let behind = (8 - end % 8) % 8;
    cut(window, behind as u32, width) as u32
}

// The field of `width` bits at bit `position`: out of a window of eight bytes, which the compiler makes one load, and which holds a field of up to 32 bits wherever in its
// first byte the field starts. The place stays a parameter: it is a bit, at which no sub-slice begins.
pub fn read_field(bytes: &[u8], position: usize, width: u32) -> u32
    requires { Room bytes.now position width }
    ensures { result ≡ field_at bytes.now position width }
{
    let Some(window) = bytes[position / 8..].first_chunk() else {
        return read_bytewise(bytes, position, width);
    };
    let offset = (position % 8) as u32;
    // a shift of one first: a field of no bits at a byte's first bit would need one of 64
    cut(u64::from_be_bytes(*window) >> 1, 63 - offset - width, width) as u32
}
