// The refusals 1 to 6 of the searches for distances, tested in document 01's order.
// A search gives its input grids, its numbers, and the lengths of what it is lent. Each search has its function: which tests it has, and
// of which grids, differs, and a parameter for each difference would be longer than the lines that are alike.
#![tactic(auto, unfolding(rules::specs::Distances::refusals_1, rules::specs::Distances::refusals_2, rules::specs::Distances::refusals_3, rules::specs::Sizes::shape, rules::specs::Sizes::first_that_holds))]

ghost use Rattle.std.specs.Prelude.{◌≡◌, OnOk};
ghost use Rattle.rules.specs.Distances.{refusals_1, refusals_2, refusals_3};
ghost use Rattle.calls.specs.Answer.{judged_as};
ghost use Rattle.rules.specs.Sizes.{grid};
ghost use Rattle.calls.specs.Given.{Held, lent};

use crate::answer::Refusal;
use crate::limits::{judge_cell_size, judge_limit};
use crate::shape::{Lengths, judge_shape};
use crate::times::first_negative;
use rules::{Grid, Spacing};

// Search 1, `distances_up_to`.
pub fn judge_1(targets: Grid<'_, u8>, spacing: Spacing, lengths: Lengths<'_>) -> Result<(), Refusal>
    ensures { judged_as result ≡ refusals_1 (grid targets.entry.size targets.entry.cells.now) spacing (lent lengths.entry.slices.now lengths.entry.queue) }
{
    judge_shape(targets.size, &[], &[targets.cells.len()], lengths)?;
    judge_cell_size(spacing)?;
    judge_limit(spacing.limit)
}

// Search 2, `distance_with_obstacles`. Its limit is never read.
pub fn judge_2(
    targets: Grid<'_, u8>,
    obstacles: Grid<'_, u8>,
    spacing: Spacing,
    lengths: Lengths<'_>,
) -> Result<(), Refusal>
    ensures { judged_as result ≡ refusals_2 (grid targets.entry.size targets.entry.cells.now) (grid obstacles.entry.size obstacles.entry.cells.now) spacing (lent lengths.entry.slices.now lengths.entry.queue) }
{
    judge_shape(
        targets.size,
        &[obstacles.size],
        &[targets.cells.len(), obstacles.cells.len()],
        lengths,
    )?;
    judge_cell_size(spacing)
}

// Search 3, `travel_distances_up_to`.
pub fn judge_3(
    targets: Grid<'_, u8>,
    times: Grid<'_, f32>,
    cap: f32,
    lengths: Lengths<'_>,
) -> Result<(), Refusal>
    ensures held { OnOk result (Held times.entry.cells.now) }
    ensures judged { judged_as result ≡ refusals_3 (grid targets.entry.size targets.entry.cells.now) (grid times.entry.size times.entry.cells.now) cap (lent lengths.entry.slices.now lengths.entry.queue) }
{
    judge_shape(
        targets.size,
        &[times.size],
        &[targets.cells.len(), times.cells.len()],
        lengths,
    )?;
    judge_limit(cap)?;
    first_negative(targets.size, times.cells)
}
