// Answers on standard output, and the recorded lengths of lent slices.

ghost use Rattle.std.specs.Prelude.{◌≡◌, length, min};

use plain::Answer;
use plain::answers::Value;
use plain::refusals::Refusal;
use std::fmt::Display;
use std::io;

// A recorded length, cut where the words end.
pub fn within<T>(recorded: u32, words: &[T]) -> usize
    ensures { result ≡ min recorded (length words.now) }
{
    (recorded as usize).min(words.len())
}

// Words, a space before each, and the end of the line.
pub fn print_words<W: Display>(rt: &impl Print, words: &[W]) -> io::Result<()> {
    for word in words {
        print!(rt; " {word}")?;
    }
    println!(rt)
}

// What a call came to and, where it is done, the words that it wrote.
pub fn print_written<T: Value + Copy, W: Display>(
    rt: &impl Print,
    came: Result<T, Refusal>,
    words: &[W],
) -> io::Result<()> {
    let answer = Answer::from(came);
    print!(rt; "{answer}")?;
    print_words(rt, if came.is_ok() { words } else { &[] })
}
