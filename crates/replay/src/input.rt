// Recorded lines on standard input: a call, the operations of a strip, the bytes of an image. Crate replay_main tells what a line is.

ghost use Rattle.std.specs.Prelude.{◌<◌};

use crate::Line;
use std::io::{ErrorKind, Read};
use std::{array, io};

// What a hexadecimal digit stands for; any other byte gives some number too, where `char::to_digit` has none.
fn digit(byte: u8) -> u32
    ensures { result < 16 }
{
    let code = u32::from(byte);
    (code % 16 + 9 * (code / 64)) % 16
}

// The word that eight digits stand for.
fn word(digits: &[u8]) -> u32 {
    digits
        .iter()
        .fold(0, |word, byte| (word << 4) | digit(*byte))
}

// The next line of the input, behind each word of which stands a space or the end of the line; none where less than a line is left. A read that fails is answered.
pub fn next(rt: &impl Input) -> io::Result<Option<Line>> {
    let mut line: [u8; 45] = [0; 45];
    match rt.reader().read_exact(&mut line) {
        Ok(()) => Ok(Some(array::from_fn(|i| word(&line[9 * i..9 * i + 8])))),
        Err(error) if error.kind() == ErrorKind::UnexpectedEof => Ok(None),
        Err(error) => Err(error),
    }
}

// The kind of a line that ends the input, as the end of the file does.
pub const END: u32 = u32::MAX;

// What stands for an operation that a shorter input lacks: its code is unknown.
const NO_OPERATION: Line = [END, 0, 0, 0, 0];

// Reads the operations of a strip, a line each, to the start of `words`.
pub fn read_operations(rt: &impl Input, words: &mut [u32], lines: u32) -> io::Result<()> {
    for i in 0..lines as usize {
        let operation = next(rt)?.unwrap_or(NO_OPERATION);
        let at = 5 * i;
        if words.len() < at + 5 {
            return Ok(());
        }
        words[at..at + 5].copy_from_slice(&operation);
    }
    Ok(())
}

// Reads bytes, sixteen a line behind its first word, to the start of `bytes`; what is left of a shorter input is 0. Each line is asked for, also behind an end of
// the input, as a terminal may go on after one.
pub fn read_bytes(rt: &impl Input, bytes: &mut [u8], lines: u32) -> io::Result<()> {
    for i in 0..lines as usize {
        let line = next(rt)?.unwrap_or([0; 5]);
        let at = 16 * i;
        if bytes.len() < at + 16 {
            return Ok(());
        }
        let words = &line[1..];
        for (four, word) in bytes[at..at + 16].chunks_exact_mut(4).zip(words) {
            four.copy_from_slice(&word.to_be_bytes());
        }
    }
    Ok(())
}
