// The program lotstrip as a function: from the bytes of its input to the whole text that it prints. Document 01, "Proof by example", M12.

#![tactic(auto)]

pub mod book;
pub mod input;
pub mod rooms;
pub mod text;

ghost use Rattle.std.specs.Prelude.{◌+◌, ◌≤◌, length};
ghost use Rattle.plain.specs.Calls.{fresh_state};
ghost use Rattle.plain.specs.Lotstrip.{words_of, lotstrip_run, lotstrip};
ghost use Rattle.lotstrip_text.specs.Appending.{Appended};
ghost use Rattle.lotstrip_text.specs.Printing.{printed, text_room, Roomy, Runnable, LotstripOf};

use plain::OPERATION_WORDS;
use rooms::{ANSWERS, IMAGE, INPUT, OPERATION_BYTES, WORD_BYTES, WORDS};
use text::Text;

// Prints a strip's answers and its image.
fn print(out: &mut Text, answers: &[u32], bytes: &[u8])
    requires { out.old.end + length (printed answers.now bytes.now) ≤ length out.old.bytes.now }
    ensures { Appended out.old (printed answers.now bytes.now) out.new }
{
    out.write_answers(answers);
    out.write_hex(bytes);
    out.push(b'\n');
}

// Runs an input of whole operations, and prints what it comes to.
fn run(input: &[u8], out: &mut Text)
    requires { Runnable input.now out.old }
    ensures { Appended out.old (lotstrip_run fresh_state (words_of input.now)) out.new }
{
    // No heap: fixed arrays.
    let mut words: [u32; WORDS] = [0; WORDS];
    let mut answers: [u32; ANSWERS] = [0; ANSWERS];
    let mut bytes: [u8; IMAGE] = [0; IMAGE];
    input::read_words(input, &mut words);
    let count = input.len() / WORD_BYTES;
    let answered = 2 * (count / OPERATION_WORDS);
    let size = book::book(&words[..count], &mut answers, &mut bytes);
    print(out, &answers[..answered], &bytes[..size]);
}

// Prints what the program prints for an input.
fn tell(input: &[u8], out: &mut Text)
    requires { Roomy out.old }
    ensures { Appended out.old (lotstrip input.now) out.new }
{
    if INPUT < input.len() {
        out.write(b"strip 2\n");
    } else if input.len() % OPERATION_BYTES != 0 {
        out.write(b"strip 3\n");
    } else {
        run(input, out);
    }
}

// What the program prints for an input, to the start of the text, and how long it is. It helps a program: the text's room is required.
pub fn lotstrip(input: &[u8], text: &mut [u8]) -> usize
    requires { text_room ≤ length text.old }
    ensures { LotstripOf input.now text.old result text.new }
{
    let mut out = Text::new(text);
    tell(input, &mut out);
    out.end
}
