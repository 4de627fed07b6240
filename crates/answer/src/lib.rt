// From the bytes of a grid file to the bytes of its answer: all that the program `haul` does but read
// and write.
//
// The crate promises of `answer_file`, for every byte string and every output, what specs/Answering.antt
// says: the file form is judged first, then the search that it asks for answers on its grids, and the
// bytes of that outcome, refusals included, stand at the front of the output. The call has no condition,
// and what it is given decides what it gives and leaves.
#![tactic(auto)]

mod file;
mod grids;
mod search;
mod write;

pub use file::{LONGEST, LONGEST_FILE, answer_file};
