// The refusals 1 to 6 of the searches for values at the closest target. A function for each search, as in judge_distances.rt.
#![tactic(auto, unfolding(rules::specs::Values::refusals_4, rules::specs::Values::refusals_5, rules::specs::Values::refusals_6, rules::specs::Sizes::shape, rules::specs::Sizes::first_that_holds))]

ghost use Rattle.std.specs.Prelude.{◌≡◌, OnOk};
ghost use Rattle.rules.specs.Values.{refusals_4, refusals_5, refusals_6};
ghost use Rattle.calls.specs.Answer.{judged_as};
ghost use Rattle.rules.specs.Sizes.{grid};
ghost use Rattle.calls.specs.Given.{Held, lent};

use crate::answer::Refusal;
use crate::limits::judge_limit;
use crate::shape::{Lengths, judge_shape};
use crate::times::first_negative;
use rules::Grid;

// Search 4, `value_at_closest_target`.
pub fn judge_4(
    targets: Grid<'_, u8>,
    values: Grid<'_, f32>,
    lengths: Lengths<'_>,
) -> Result<(), Refusal>
    ensures { judged_as result ≡ refusals_4 (grid targets.entry.size targets.entry.cells.now) (grid values.entry.size values.entry.cells.now) (lent lengths.entry.slices.now lengths.entry.queue) }
{
    judge_shape(
        targets.size,
        &[values.size],
        &[targets.cells.len(), values.cells.len()],
        lengths,
    )
}

// Search 5, `value_at_closest_travel_target`.
pub fn judge_5(
    targets: Grid<'_, u8>,
    times: Grid<'_, f32>,
    values: Grid<'_, f32>,
    lengths: Lengths<'_>,
) -> Result<(), Refusal>
    ensures held { OnOk result (Held times.entry.cells.now) }
    ensures judged { judged_as result ≡ refusals_5 (grid targets.entry.size targets.entry.cells.now) (grid times.entry.size times.entry.cells.now) (grid values.entry.size values.entry.cells.now) (lent lengths.entry.slices.now lengths.entry.queue) }
{
    judge_shape(
        targets.size,
        &[times.size, values.size],
        &[targets.cells.len(), times.cells.len(), values.cells.len()],
        lengths,
    )?;
    first_negative(targets.size, times.cells)
}

// Search 6, `value_at_closest_less_than_travel_target`.
pub fn judge_6(
    targets: Grid<'_, u8>,
    times: Grid<'_, f32>,
    values: Grid<'_, f32>,
    limit: f32,
    lengths: Lengths<'_>,
) -> Result<(), Refusal>
    ensures held { OnOk result (Held times.entry.cells.now) }
    ensures judged { judged_as result ≡ refusals_6 (grid targets.entry.size targets.entry.cells.now) (grid times.entry.size times.entry.cells.now) (grid values.entry.size values.entry.cells.now) limit (lent lengths.entry.slices.now lengths.entry.queue) }
{
    judge_shape(
        targets.size,
        &[times.size, values.size],
        &[targets.cells.len(), times.cells.len(), values.cells.len()],
        lengths,
    )?;
    judge_limit(limit)?;
    first_negative(targets.size, times.cells)
}
