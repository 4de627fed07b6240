// The test on times: refusal 6.
ghost use Rattle.std.specs.Prelude.{◌≡◌, [], ◌∷◌, T, length};
ghost use Rattle.rules.specs.Sizes.{in_bounds, count, first_that_holds, negative_time};
ghost use Rattle.calls.specs.Answer.{judged_as};
ghost use Rattle.calls.specs.Given.{Held};

use crate::answer::Refusal;
use rules::Size;

// 6: the first time below 0 in row order, which leaves both loops, as document 01 fixes. The times are no grid here: of a slice
// that is a parameter it is known that its floats are those of binary32, and not of one in a record.
#[tactic(auto, using(crate::proofs::RowScans::row_scans), unfolding(rules::specs::Sizes::first_that_holds))]
pub fn first_negative(size: Size, times: &[f32]) -> Result<(), Refusal>
    requires bounded { T (in_bounds size) }
    requires whole { length times.now ≡ count size }
    ensures held { Held times.now }
    ensures judged { judged_as result ≡ first_that_holds (negative_time times.now ∷ []) }
{
    let rows = size.rows as usize;
    let cols = size.cols as usize;
    'times: {
        for row in 0..rows {
            for col in 0..cols {
                let index = row * cols + col;
                if times[index] < 0.0 {
                    break 'times Err(Refusal::NegativeTime(index as u32));
                }
            }
        }
        Ok(())
    }
}
