// Text into lent bytes: decimal numbers, a strip's answers, and bytes in hexadecimal. All functions are internal: the room for the text is required. What the text is
// stands in crate `plain`, specs/Lotstrip.antt.
//
// Tried: `write!` into an `impl fmt::Write`. Its clauses say what was written where it answers `Ok`, and no clause can say that it does where there is room, so that a
// function that cannot fail has no proof by it. So the digits are written here.

ghost use Rattle.std.specs.Prelude.{◌+◌, ◌≤◌, ◌<◌, ◌/◌, ◌%◌, ◌≡◌, ◌∷◌, ◌++◌, [], length};
ghost use Rattle.plain.specs.Lotstrip.{decimal, answer_lines, hex_digit, hexadecimal};
ghost use Rattle.lotstrip_text.specs.Appending.{Appended};
ghost use Rattle.lotstrip_text.specs.Lines.{line};

// How many decimal digits a number has.
fn digit_count(n: u64) -> usize
    ensures { result ≡ length (decimal n) }
{
    match n.checked_ilog10() {
        Some(power) => power as usize + 1,
        None => 1,
    }
}

// Writes the digits of a number into as many bytes, the last one first.
fn write_digits(digits: &mut [u8], n: u64)
    requires { length digits.old ≡ length (decimal n) }
    ensures { digits.new ≡ decimal n }
{
    let count = digits.len();
    let mut left = n;
    for done in 0..count {
        digits[count - 1 - done] = b'0' + (left % 10) as u8;
        left /= 10;
    }
}

// The lower-case hexadecimal digit of a number below 16.
fn hex_digit(n: u8) -> u8
    requires { n < 16 }
    ensures { result ≡ hex_digit n }
{
    if n < 10 { b'0' + n } else { b'a' - 10 + n }
}

// Text at the start of lent bytes.
#[derive(Drop)]
pub struct Text<'a> {
    pub bytes: &'a mut [u8],
    // how long it is
    pub end: usize,
}

impl<'a> Text<'a> {
    // No text yet.
    pub fn new(bytes: &'a mut [u8]) -> Text<'a>
        ensures same { result.bytes.ghost_name ≡ bytes.entry.ghost_name }
        ensures here { result.bytes.now ≡ bytes.old }
        ensures empty { result.end ≡ 0 }
    {
        Text { bytes, end: 0 }
    }

    // Writes a byte.
    pub fn push(&mut self, byte: u8)
        requires { self.old.end < length self.old.bytes.now }
        ensures { Appended self.old (byte ∷ []) self.new }
    {
        self.bytes[self.end] = byte;
        self.end += 1;
    }

    // Writes bytes as they are.
    pub fn write(&mut self, bytes: &[u8])
        requires { self.old.end + length bytes.now ≤ length self.old.bytes.now }
        ensures { Appended self.old bytes.now self.new }
    {
        let end = self.end + bytes.len();
        self.bytes[self.end..end].copy_from_slice(bytes);
        self.end = end;
    }

    // Writes a number in decimal and a byte behind it.
    fn write_number(&mut self, n: u64, after: u8)
        requires { self.old.end + length (decimal n) < length self.old.bytes.now }
        ensures { Appended self.old (decimal n ++ (after ∷ [])) self.new }
    {
        let end = self.end + digit_count(n);
        write_digits(&mut self.bytes[self.end..end], n);
        self.end = end;
        self.push(after);
    }

    // Writes the line of an operation: its position, number and value.
    fn write_line(&mut self, position: u64, number: u32, value: u32)
        requires { self.old.end + length (line position number value) ≤ length self.old.bytes.now }
        ensures { Appended self.old (line position number value) self.new }
    {
        self.write_number(position, b' ');
        self.write_number(number as u64, b' ');
        self.write_number(value as u64, b'\n');
    }

    // Writes a line for each two words of answer, with positions from 0.
    pub fn write_answers(&mut self, answers: &[u32])
        requires { self.old.end + length (answer_lines 0 answers.now) ≤ length self.old.bytes.now }
        ensures { Appended self.old (answer_lines 0 answers.now) self.new }
    {
        let (pairs, _) = answers.as_chunks::<2>();
        for (position, pair) in pairs.iter().enumerate() {
            let [number, value] = *pair;
            self.write_line(position as u64, number, value);
        }
    }

    // Writes the two digits of a byte.
    fn write_byte(&mut self, byte: u8)
        requires { self.old.end + 2 ≤ length self.old.bytes.now }
        ensures { Appended self.old (hex_digit (byte / 16) ∷ hex_digit (byte % 16) ∷ []) self.new }
    {
        self.push(hex_digit(byte / 16));
        self.push(hex_digit(byte % 16));
    }

    // Writes bytes in hexadecimal.
    pub fn write_hex(&mut self, bytes: &[u8])
        requires { self.old.end + length (hexadecimal bytes.now) ≤ length self.old.bytes.now }
        ensures { Appended self.old (hexadecimal bytes.now) self.new }
    {
        for byte in bytes {
            self.write_byte(*byte);
        }
    }
}
