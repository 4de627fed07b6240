// Runs the oracle's stored answers through the library and compares every bit: a line for each file.
#![tactic(auto)]

ghost use Rattle.std.specs.Prelude.{◌≡◌, ◌≤◌, ◌<◌, length, take, IfOk};
ghost use Rattle.std.specs.Io.KnownBytes.{Consumes, IsAtEnd};
ghost use Rattle.replay.specs.Reading.{GoesOn};

mod answers;
mod buffers;
mod by_distance;
mod by_sum;
mod by_value;
mod case;
mod grids;
mod kinds;
mod lent;
mod searches;
mod settings;
mod stored;
mod words;

use case::Room;
use std::io::Read;
use std::rt::Files;
use std::{fmt, fs, io};
use words::{Malformed, Reader};

// The files, and what their lines begin with: one for each search, one for document 01's small grids,
// and one for the cases on which two programs once differed.
const FILES: [(&str, &str); 10] = [
    ("search-1.txt", "search 1"),
    ("search-2.txt", "search 2"),
    ("search-3.txt", "search 3"),
    ("search-4.txt", "search 4"),
    ("search-5.txt", "search 5"),
    ("search-6.txt", "search 6"),
    ("search-7.txt", "search 7"),
    ("search-8.txt", "search 8"),
    ("small.txt", "small grids"),
    ("differed.txt", "once differed"),
];

// Why a text does not agree: this case differs, or this word is malformed.
#[derive(Clone, Copy, Debug, PartialEq, Eq)]
enum Failure {
    Differs(u64),
    Malformed(Malformed),
}

impl From<Malformed> for Failure {
    fn from(malformed: Malformed) -> Failure {
        Failure::Malformed(malformed)
    }
}

impl fmt::Display for Failure {
    fn fmt<W: fmt::Write>(&self, f: &mut fmt::Formatter<W>) -> fmt::Result {
        match self {
            Failure::Differs(count) => write!(f, "case {count} differs"),
            Failure::Malformed(malformed) => write!(f, "{malformed}"),
        }
    }
}

// Whether the case that comes next agrees: read, run and compared. A function of its own in the program too, so that its buffers take
// stack only where there is a case.
#[inline(never)]
fn replay_case(reader: &mut Reader<'_>) -> Result<bool, Malformed>
    ensures goes_on { GoesOn reader.old reader.new }
    ensures further { IfOk result (λ _. reader.old.pos < reader.new.pos) }
{
    let mut room = Room::new();
    let case = case::read_case(reader, &mut room)?;
    Ok(searches::agrees(&case))
}

// How many cases of a text agree, where all do.
fn replay_text(text: &[u8]) -> Result<u64, Failure> {
    let mut reader = Reader::new(text);
    let mut count: u64 = 0;
    reader.past_comments();
    while reader.pos < text.len() {
        if !replay_case(&mut reader)? {
            return Err(Failure::Differs(count));
        }
        count += 1;
        reader.past_comments();
    }
    Ok(count)
}

// Prints what a text came to.
fn print_outcome<R: Print>(rt: &R, outcome: Result<u64, Failure>) -> io::Result<()> {
    match outcome {
        Ok(count) => println!(rt; "{count} cases agree"),
        Err(failure) => println!(rt; "{failure}"),
    }
}

// Zeros, more than a stored file has bytes.
fn text_buffer() -> [u8; 524_288]
    ensures { 524288 ≡ length result }
{
    [0; 524_288]
}

// Reads until the buffer is full or the file ends, and answers how many bytes it put at the
// buffer's start. (std's `read_exact` does not tell how many there were, and `read_to_end` fills a
// `Vec`. `haul` has the same loop: no library here reads, and a crate for this alone is no plainer.)
fn read_full<R: Read>(reader: &mut R, buffer: &mut [u8]) -> io::Result<usize>
    ensures fits { IfOk result (λ n. n ≤ length buffer.new) }
    ensures read { IfOk result (λ n. Consumes (R.remaining reader.old) (R.remaining reader.new) (take n buffer.new)) }
    ensures all { IfOk result (λ n. n < length buffer.new → IsAtEnd (R.remaining reader.new)) }
{
    let mut done = 0;
    while done < buffer.len() {
        let read = reader.read(&mut buffer[done..])?;
        if read == 0 {
            break;
        }
        done += read;
    }
    Ok(done)
}

// Reads a whole file and replays it. A file that fills the buffer may be cut, so it is not run.
fn replay_open<R: Print, F: Read>(rt: &R, file: &mut F) -> io::Result<()> {
    let mut buffer = text_buffer();
    let length = read_full(file, &mut buffer)?;
    if length == buffer.len() {
        return println!(rt; "too long to be read");
    }
    print_outcome(rt, replay_text(&buffer[..length]))
}

// Replays the file at a path, and prints its line.
fn replay<R: Files + Print>(rt: &R, path: &str, name: &str) -> io::Result<()> {
    print!(rt; "{name}: ")?;
    match fs::open(rt, path) {
        Ok(mut file) => replay_open(rt, &mut file),
        Err(_) => println!(rt; "can't be opened"),
    }
}

fn main(rt: HostRuntime) -> io::Result<()> {
    for (path, name) in FILES {
        replay(&rt, path, name)?;
    }
    Ok(())
}
