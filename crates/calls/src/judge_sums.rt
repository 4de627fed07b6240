// The refusals 1 to 6 of the searches for sums within reach. A function for each search, as in judge_distances.rt.
#![tactic(auto, unfolding(rules::specs::Sums::refusals_7, rules::specs::Sums::refusals_8, rules::specs::Sizes::shape, rules::specs::Sizes::first_that_holds))]

ghost use Rattle.std.specs.Prelude.{◌≡◌, [], ◌∷◌, T, length, OnOk};
ghost use Rattle.rules.specs.Sums.{refusals_7, refusals_8};
ghost use Rattle.calls.specs.Answer.{judged_as};
ghost use Rattle.rules.specs.Sizes.{grid, in_bounds, count, first_that_holds, or_else, bad_budget, negative_time};
ghost use Rattle.calls.specs.Given.{Held, lent};

use crate::answer::Refusal;
use crate::limits::judge_budget;
use crate::shape::{Lengths, judge_shape};
use crate::times::first_negative;
use rules::{Grid, Size};

// 5, by a budget, then 6. The times are a slice and no `Grid`, as in `first_negative`.
fn judge_budget_and_times(budget: f32, size: Size, times: &[f32]) -> Result<(), Refusal>
    requires bounded { T (in_bounds size) }
    requires whole { length times.now ≡ count size }
    ensures held { Held times.now }
    ensures judged { judged_as result ≡ first_that_holds (bad_budget budget ∷ negative_time times.now ∷ []) }
    ensures ordered { judged_as result ≡ or_else (first_that_holds (bad_budget budget ∷ [])) (first_that_holds (negative_time times.now ∷ [])) }
{
    judge_budget(budget)?;
    first_negative(size, times)
}

// Search 7, `sum_within_travel_distance`. Refusal 7 is given only once the search runs.
pub fn judge_7(
    mask: Grid<'_, u8>,
    times: Grid<'_, f32>,
    values: Grid<'_, f32>,
    budget: f32,
    lengths: Lengths<'_>,
) -> Result<(), Refusal>
    ensures held { OnOk result (Held times.entry.cells.now) }
    ensures judged { judged_as result ≡ refusals_7 (grid mask.entry.size mask.entry.cells.now) (grid times.entry.size times.entry.cells.now) (grid values.entry.size values.entry.cells.now) budget (lent lengths.entry.slices.now lengths.entry.queue) }
{
    judge_shape(
        mask.size,
        &[times.size, values.size],
        &[mask.cells.len(), times.cells.len(), values.cells.len()],
        lengths,
    )?;
    judge_budget_and_times(budget, mask.size, times.cells)
}

// Search 8, `sum_targets_within_travel_distance`.
pub fn judge_8(
    times: Grid<'_, f32>,
    amounts: Grid<'_, f32>,
    budget: f32,
    lengths: Lengths<'_>,
) -> Result<(), Refusal>
    ensures held { OnOk result (Held times.entry.cells.now) }
    ensures judged { judged_as result ≡ refusals_8 (grid times.entry.size times.entry.cells.now) (grid amounts.entry.size amounts.entry.cells.now) budget (lent lengths.entry.slices.now lengths.entry.queue) }
{
    judge_shape(
        times.size,
        &[amounts.size],
        &[times.cells.len(), amounts.cells.len()],
        lengths,
    )?;
    judge_budget_and_times(budget, times.size, times.cells)
}
