// Program `haul`: reads a grid file on standard input, and writes its answer on standard output.
#![tactic(auto)]

ghost use Rattle.std.specs.Prelude.{◌≤◌, ◌<◌, length, take, IfOk};
ghost use Rattle.std.specs.Io.KnownBytes.{Consumes, IsAtEnd};

use answer::{LONGEST, LONGEST_FILE, answer_file};
use std::io;
use std::io::Read;

// One byte more than the longest file that keeps the form has: what fills the array is refusal 8,
// whatever comes after it (proofs/Reading.antt of `answer`).
const INPUT: usize = LONGEST_FILE + 1;

// Reads until the buffer is full or the input ends, and answers how many bytes it put at the
// buffer's start. (std's `read_exact` does not tell how many there were, and `read_to_end` fills a
// `Vec`. `replay` has the same loop: no library here reads, and a crate for this alone is no plainer.)
fn read_full<R: Read>(reader: &mut R, buffer: &mut [u8]) -> io::Result<usize>
    ensures fits { IfOk result (λ n. n ≤ length buffer.new) }
    ensures read { IfOk result (λ n. Consumes (R.remaining reader.old) (R.remaining reader.new) (take n buffer.new)) }
    ensures all { IfOk result (λ n. n < length buffer.new → IsAtEnd (R.remaining reader.new)) }
{
    let mut done = 0;
    while done < buffer.len() {
        let read = reader.read(&mut buffer[done..])?;
        if read == 0 {
            break;
        }
        done += read;
    }
    Ok(done)
}

// Reads, answers and writes.
fn main(rt: HostRuntime) -> io::Result<()> {
    let mut input = [0u8; INPUT];
    let mut output = [0u8; LONGEST];
    let read = read_full(&mut rt.stdin(), &mut input)?;
    let written = answer_file(&input[..read], &mut output);
    rt.write_all(&output[..written])
}
