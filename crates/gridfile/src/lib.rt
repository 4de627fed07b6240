// Document 01's grid file, on slices of bytes: what a file asks for, and the bytes of an answer.
//
// The crate promises that `parse` gives, for every byte string, what specs/Request.antt reads in it: the
// request, or refusal 8. A request says where in the file its grids stand; `copy_bytes` and
// `read_floats` fetch them, and `diagonals_of` reads the flag for diagonals. `Search` has the eight
// searches, `try_from` the one with a number, and `grids` the grids that it has. `write_refused` and
// `write_accepted` write exactly the bytes of specs/Answers.antt. There is no input and no output here.
// proofs/Requests.antt has what a program may rely on in a request, proofs/ReadBack.antt that the fields
// of a file are those that were written, and proofs/Cases.antt files and answers on which the
// definitions were computed.
#![tactic(auto)]

mod answers;
mod contents;
mod fields;
mod grids;
mod head;
mod numbers;
mod request;
mod searches;
mod tags;

pub use answers::{write_accepted, write_refused};
pub use contents::{copy_bytes, read_floats};
pub use fields::Part;
pub use grids::{FIELD_MAX, Grids};
pub use head::{FILE_CELLS_MAX, HEAD_END};
pub use request::{BadFile, Request, diagonals_of, parse};
pub use searches::{Has, Search};
