// The pen: fields of bits put one after the other into lent bytes. Bits wait in the pen until there are four bytes of them, so that a byte is written once and none
// is read.

ghost use Rattle.std.specs.Prelude.{◌+◌, ◌*◌, ◌<◌, ◌≤◌, ◌≡◌, ◌++◌, length};
ghost use Rattle.plain.specs.Bits.{bits, bits_of, padding};
ghost use Rattle.bits.specs.Wrote.{Wrote};
ghost use Rattle.bits.specs.Penned.{Ready, Puts, Penned, Written, fresh, reach, waiting};

use crate::{cut, raise};

// The bytes before `at` are written; `count` bits, fewer than 32, wait in `pending`.
#[derive(Clone, Copy)]
pub struct Pen {
    pub at: usize,
    pub pending: u64,
    pub count: u32,
}

// Writes the low bytes of x, as many as there are bytes: where that is four the compiler makes one store of it. By shifts, and not as a copy of `to_be_bytes`: a copy of
// which the compiler does not know the length calls memcpy, and the archive for C asks for as little from outside as it can.
fn write_low(bytes: &mut [u8], x: u32)
    requires { length bytes.old ≤ 4 }
    ensures { bits bytes.new ≡ bits_of (8 * length bytes.old) x }
{
    let count = bytes.len();
    for i in 0..count {
        bytes[i] = ((x >> (8 * (count - 1 - i))) % 256) as u8;
    }
}

// The pen over the bytes that it writes. A function that is lent a writer ensures that its bytes keep their ghost name, as `put` does: else its callers know nothing of
// the bytes afterwards.
#[derive(Drop)]
pub struct Writer<'a> {
    pub bytes: &'a mut [u8],
    pub pen: Pen,
}

impl<'a> Writer<'a> {
    // The pen before the first bit.
    pub fn new(bytes: &'a mut [u8]) -> Writer<'a>
        ensures same { result.bytes.ghost_name ≡ bytes.entry.ghost_name }
        ensures here { result.bytes.now ≡ bytes.old }
        ensures pen { result.pen ≡ fresh }
    {
        Writer {
            bytes,
            pen: Pen {
                at: 0,
                pending: 0,
                count: 0,
            },
        }
    }

    // Puts a value behind what was put, in `width` bits.
    pub fn put(&mut self, width: u32, value: u64)
        requires { Puts self.old.bytes.now self.old.pen width value }
        ensures { Written self.old (bits_of width value) self.new }
    {
        let Pen { at, pending, count } = self.pen;
        let pending = raise(pending, width) + value;
        let count = count + width;
        if count < 32 {
            self.pen = Pen { at, pending, count };
            return;
        }
        let left = count - 32;
        let bytes = &mut *self.bytes;
        write_low(&mut bytes[at..at + 4], (pending >> left) as u32);
        self.pen = Pen {
            at: at + 4,
            pending: cut(pending, 0, left),
            count: left,
        };
    }

    // Writes what waits in the pen, and zero bits up to a byte.
    pub fn finish(self)
        requires { Ready self.pen × (reach self.pen ≤ 8 * length self.bytes.now) }
        ensures { Wrote self.entry.bytes.now (8 * self.entry.pen.at) (waiting self.entry.pen ++ bits_of (padding (reach self.entry.pen)) 0) self.exit.0.now }
    {
        let Writer { bytes, pen } = self;
        let parts = pen.count.div_ceil(8);
        let all = raise(pen.pending, 8 * parts - pen.count);
        write_low(&mut bytes[pen.at..pen.at + parts as usize], all as u32);
    }
}
