// The program lotstrip: reads a strip from standard input and prints its answers and its image. It only reads and writes: crate lotstrip_text has the work. The
// files stdin and stdout beside src are document 01's M12.
//
// A read that fails is not the end of the input: nothing is booked then, standard output stays empty, and a line on standard error says so. The exit status is 1
// then, and where standard output could not be written.

#![tactic(auto)]

ghost use Rattle.std.specs.Prelude.{◌≤◌, length, IfOk};

use lotstrip_text::rooms::{INPUT, TEXT};
use std::io;
use std::io::Read;
use std::process::ExitCode;

// Reads the input to the start of `bytes`, up to the input's end or as many bytes as there is room for, and answers how many are there.
fn read_input(reader: &mut impl Read, bytes: &mut [u8]) -> io::Result<usize>
    ensures { IfOk result (λ count. count ≤ length bytes.new) }
{
    let mut done: usize = 0;
    // Moves on by what each read gave, so that it is no counted index.
    while done < bytes.len() {
        let more = reader.read(&mut bytes[done..])?;
        if more == 0 {
            return Ok(done);
        }
        done += more;
    }
    Ok(done)
}

fn main(rt: HostRuntime) -> ExitCode {
    // No heap: fixed arrays. One byte more than a strip may have, so that more is told from as many.
    let mut bytes: [u8; INPUT + 1] = [0; INPUT + 1];
    let mut text: [u8; TEXT] = [0; TEXT];
    let Ok(length) = read_input(&mut rt.reader(), &mut bytes) else {
        let _ = eprintln!(rt; "lotstrip: standard input could not be read; nothing is booked");
        return ExitCode::FAILURE;
    };
    let size = lotstrip_text::lotstrip(&bytes[..length], &mut text);
    if rt.write_all(&text[..size]).is_err() {
        let _ = eprintln!(rt; "lotstrip: standard output could not be written");
        return ExitCode::FAILURE;
    }
    ExitCode::SUCCESS
}
