// What the searches take for granted of IEEE 754 binary32, Rust's `f32`.
//
// The crate promises that nodata is any NaN and nothing else (`is_nodata`), that a value which goes
// into an answer is unchanged but for which NaN it is (`one_nan`), that a float's bits are those of
// IEEE 754 (`of_bits`, `bits_of`), and that the lengths of the two steps are 1 and the binary32 value
// nearest to the root of 2 (`STRAIGHT`, `DIAGONAL`, and the theorem of proofs/RootOfTwo.antt). Its laws on binary32 (order, rounding, sums, products, exact
// results) are in proofs/, for the crates above.
#![tactic(auto)]

mod bits;
mod environment;
mod nodata;
mod numbers;
mod steps;

pub use bits::{NAN_BITS, bits_of, of_bits};
pub use environment::keeps_binary32;
pub use nodata::{is_nodata, nan, one_nan};
pub use numbers::infinity;
pub use steps::{DIAGONAL, STRAIGHT, diagonal_step, straight_step};
