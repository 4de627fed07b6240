// What a call leaves behind: work buffers of zeros, and after refusal 7 an answer of NaN.
ghost use Rattle.std.specs.Prelude.{◌≡◌, length, replicate};
ghost use Rattle.std.specs.Float.Ieee as Ieee;

use binary32::nan;

// Makes every cell of a slice this one.
#[tactic(auto, using(crate::proofs::Turns::mapped_more, crate::proofs::Turns::filled_all))]
pub fn fill<T: Copy>(cells: &mut [T], value: T)
    ensures { cells.new ≡ replicate (length cells.old) value }
{
    for cell in cells.iter_mut() {
        *cell = value;
    }
}

// Makes every answer the one NaN, as refusal 7 leaves them.
pub fn fill_nan(answer: &mut [f32])
    ensures { answer.new ≡ replicate (length answer.old) Ieee.nan }
{
    fill(answer, nan());
}
