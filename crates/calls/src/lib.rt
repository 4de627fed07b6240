// What all searches share around the search itself: the answer, the refusals and the lent slices.
//
// The crate promises that each search's judgement is the first of document 01's refusals 1 to 6 that
// applies (`judge_1` to `judge_8`), found before anything is written; that work buffers can be left
// all zero and an answer all NaN (`fill`, `fill_nan`); that scaling multiplies every cell by the
// cell size, with one NaN for all (`scale`, `settle`); and that a refusal has document 01's number
// (`Numbered`). specs/Answer.antt gives that number, and says what a call leaves in the lent slices;
// every promise goes through it. proofs/ has what a search concludes from a judgement.
#![tactic(auto)]

mod answer;
mod filling;
mod judge_distances;
mod judge_sums;
mod judge_values;
mod limits;
mod numbers;
mod scaling;
mod shape;
mod times;

pub use answer::{Answer, Counts, Refusal};
pub use filling::{fill, fill_nan};
pub use judge_distances::{judge_1, judge_2, judge_3};
pub use judge_sums::{judge_7, judge_8};
pub use judge_values::{judge_4, judge_5, judge_6};
pub use numbers::Numbered;
pub use scaling::{scale, settle};
pub use shape::Lengths;
