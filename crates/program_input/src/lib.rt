// Internal: a reader read to its end, or to the buffer's. Of the system's readers no contract can say what is read; of a reader
// over memory, whose bytes are known, these say it.
#![tactic(auto)]

ghost use Rattle.std.specs.Prelude.{◌≤◌, ◌<◌, IfOk, length, take};
ghost use Rattle.std.specs.Io.KnownBytes.{Consumes, IsAtEnd};

use std::io;
use std::io::Read;

// Reads to the end of the input, or of the buffer, and counts what came. A failed read is no end: half a file is not read.
pub fn read_whole<R: Read>(reader: &mut R, buffer: &mut [u8]) -> io::Result<usize>
    ensures in_bounds { IfOk result (λ count. count ≤ length buffer.new) }
    ensures bytes { IfOk result
        (λ count. Consumes (R.remaining reader.old) (R.remaining reader.new) (take count buffer.new)) }
    ensures end { IfOk result
        (λ count. count < length buffer.new → IsAtEnd (R.remaining reader.new)) }
{
    let mut done = 0;
    // no index is counted: each read says how far it came
    while done < buffer.len() {
        let count = reader.read(&mut buffer[done..])?;
        if count == 0 {
            break;
        }
        done += count;
    }
    Ok(done)
}

// What a program writes on its input: how many bytes the text is on, or that a read failed; and how many it has itself.
#[derive(Drop)]
pub struct Output {
    pub read: io::Result<usize>,
    pub count: usize,
}

// Prints what a program has, and says on standard error what failed. Of the system's writers no contract can say what is written.
pub fn print(rt: &(impl Print + Eprint), program: &str, output: &Output, text: &[u8]) {
    if output.read.is_err() {
        let _ = eprintln!(rt; "{program}: read failed");
    }
    if rt.write_all(text).is_err() {
        let _ = eprintln!(rt; "{program}: write failed");
    }
}
