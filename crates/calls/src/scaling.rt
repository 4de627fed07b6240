// The last step of an accepted call: distances become answers.
ghost use Rattle.std.specs.Prelude.{◌≡◌};
ghost use Rattle.rules.specs.Distances.{scaled};

use binary32::{is_nodata, one_nan};
use rules::Spacing;

// Multiplies every distance by the cell size.
#[tactic(auto, using(crate::proofs::Turns::mapped_more, crate::proofs::Turns::mapped_all), unfolding(rules::specs::Distances::scaled))]
pub fn scale(distances: &mut [f32], spacing: Spacing)
    ensures { distances.new ≡ scaled spacing.cell_size distances.old }
{
    let cell_size = spacing.cell_size;
    for distance in distances.iter_mut() {
        *distance = one_nan(*distance * cell_size);
    }
}

// Makes every NaN of an answer that is not scaled the one NaN. Where there is none nothing is stored; else each cell is, by a choice
// without a jump, which would be guessed wrong wherever NaN and data alternate.
pub fn settle(answer: &mut [f32])
    ensures { answer.new ≡ answer.old }
{
    if answer.iter().any(|cell| is_nodata(*cell)) {
        for cell in answer.iter_mut() {
            *cell = one_nan(*cell);
        }
    }
}
