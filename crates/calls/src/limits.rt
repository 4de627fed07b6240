// The tests on a call's numbers: cell size, cap, time limit and budget.
#![tactic(auto, unfolding(rules::specs::Sizes::first_that_holds))]

ghost use Rattle.std.specs.Prelude.{◌≡◌, [], ◌∷◌};
ghost use Rattle.rules.specs.Sizes.{first_that_holds, bad_cell_size, nan_limit, bad_budget};
ghost use Rattle.calls.specs.Answer.{judged_as};

use crate::answer::Refusal;
use binary32::{infinity, is_nodata};
use rules::Spacing;

// Whether the cell size is not finite or not above 0.
#[tactic(auto, using(binary32::proofs::DistanceOrder::finite_below_infinity))]
fn bad_cell_size(spacing: Spacing) -> bool
    ensures { result ≡ (bad_cell_size spacing.cell_size).0 }
{
    let cell_size = spacing.cell_size;
    !(cell_size > 0.0) || !(cell_size < infinity())
}

// Whether a budget is NaN or not above 0.
fn bad_budget(limit: f32) -> bool
    ensures { result ≡ (bad_budget limit).0 }
{
    is_nodata(limit) || limit <= 0.0
}

// 4, by the cell size.
pub fn judge_cell_size(spacing: Spacing) -> Result<(), Refusal>
    ensures { judged_as result ≡ first_that_holds (bad_cell_size spacing.cell_size ∷ []) }
{
    if bad_cell_size(spacing) {
        return Err(Refusal::BadCellSize);
    }
    Ok(())
}

// 5, by a cap or a time limit.
pub fn judge_limit(limit: f32) -> Result<(), Refusal>
    ensures { judged_as result ≡ first_that_holds (nan_limit limit ∷ []) }
{
    if is_nodata(limit) {
        return Err(Refusal::BadLimit);
    }
    Ok(())
}

// 5, by a budget. (Two functions of four lines: one would be handed its test.)
pub fn judge_budget(limit: f32) -> Result<(), Refusal>
    ensures { judged_as result ≡ first_that_holds (bad_budget limit ∷ []) }
{
    if bad_budget(limit) {
        return Err(Refusal::BadLimit);
    }
    Ok(())
}
