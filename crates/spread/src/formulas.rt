// The candidate for a cell that is entered: each rule's formula, with one rounding for each operation.
ghost use Rattle.std.specs.Prelude.{◌≡◌, ℕ, cond, not};
ghost use Rattle.std.specs.Float.Ieee as Ieee;
ghost use Rattle.binary32.specs.Nodata.{nodata};
ghost use Rattle.binary32.specs.Numbers.{two};
ghost use Rattle.rules.specs.Numbers.{quarter_of_largest};
ghost use Rattle.rules.specs.declared.Size.{Size};
ghost use Rattle.rules.specs.Sizes.{grid};
ghost use Rattle.spread.specs.Nets.{by_step, by_half_sum, by_time, by_time_or_quarter};
ghost use Rattle.spread.specs.Steps.{formula_by, Timed};

use crate::relax::Left;
use binary32::is_nodata;

// A step of length s further from distance d.
fn plus_step(d: f32, s: f32) -> f32
    ensures { result ≡ Ieee.add Ieee.binary32 d s }
{
    d + s
}

// Half the step times the sum of both times, a of the cell that is left and b of the one that is entered.
fn plus_half_sum(d: f32, s: f32, a: f32, b: f32) -> f32
    ensures { result ≡ Ieee.add Ieee.binary32 d (Ieee.mul Ieee.binary32 (Ieee.div Ieee.binary32 s two) (Ieee.add Ieee.binary32 a b)) }
{
    d + (s / 2.0) * (a + b)
}

// The step times the time of the cell that is entered.
fn plus_time(d: f32, s: f32, b: f32) -> f32
    ensures { result ≡ Ieee.add Ieee.binary32 d (Ieee.mul Ieee.binary32 s b) }
{
    d + s * b
}

// The time, or the largest f32 divided by 4 where it is nodata.
fn time_or_quarter(time: f32) -> f32
    ensures { result ≡ cond (not (nodata time)) time quarter_of_largest }
{
    if is_nodata(time) {
        return 3.4028235e38 / 4.0;
    }
    time
}

// A formula, which the loop has as a type: `formula_by` in specs/Steps.antt says what the one of a number gives.
pub trait Formula {
    ghost number: { ℕ };

    // The distance over a step from the cell that is left to another.
    fn candidate(times: &[f32], left: Left, step: f32, cell: u32) -> f32
        requires { Timed number times.now left.cell cell }
        ensures { (size : Size) → result ≡ formula_by number (grid size times.now) left.cell step cell left.distance };
}

// d + s.
pub struct PlusStep;

impl Formula for PlusStep {
    ghost number = { by_step };

    fn candidate(_times: &[f32], left: Left, step: f32, _cell: u32) -> f32 {
        plus_step(left.distance, step)
    }
}

// d + (s / 2) * (a + b).
pub struct PlusHalfSum;

impl Formula for PlusHalfSum {
    ghost number = { by_half_sum };

    fn candidate(times: &[f32], left: Left, step: f32, cell: u32) -> f32 {
        let from = left.cell as usize;
        let to = cell as usize;
        plus_half_sum(left.distance, step, times[from], times[to])
    }
}

// d + s * b.
pub struct PlusTime;

impl Formula for PlusTime {
    ghost number = { by_time };

    fn candidate(times: &[f32], left: Left, step: f32, cell: u32) -> f32 {
        let to = cell as usize;
        plus_time(left.distance, step, times[to])
    }
}

// d + s * b, where a nodata time counts as the largest f32 divided by 4.
pub struct PlusTimeOrQuarter;

impl Formula for PlusTimeOrQuarter {
    ghost number = { by_time_or_quarter };

    fn candidate(times: &[f32], left: Left, step: f32, cell: u32) -> f32 {
        let to = cell as usize;
        plus_time(left.distance, step, time_or_quarter(times[to]))
    }
}
