// The run from one amount: every cell that it takes within the budget gains the amount, once.
ghost use Rattle.std.specs.Prelude.{◌≡◌, not, ◌&&◌, eqb};
ghost use Rattle.std.specs.Float.Ieee as Ieee;
ghost use Rattle.spread.specs.Steps.{terrain};
ghost use Rattle.spread.specs.Buffers.{buffers};
ghost use Rattle.sums.specs.Gain as gains;
ghost use Rattle.sums.specs.Gain.{InAnswer, GainedCell, Gaining, GainedAll};

use cells::Ring;
use spread::{Buffers, Nothing, PlusTimeOrQuarter, Search, Terrain, take_next};

// The mark of a cell that has gained the amount. C lends the marks as bytes.
pub const ADDED: u8 = 1;

// Whether a cell gains the amount: it is within the budget, and has not gained it.
fn gains(distance: f32, budget: f32, mark: u8) -> bool
    ensures { result ≡ Ieee.le distance budget && not (eqb mark gains.added_mark) }
{
    distance <= budget && mark != ADDED
}

// A taken cell gains the amount if it is within the budget, once.
fn gain_cell(
    cell: u32,
    distance: f32,
    budget: f32,
    amount: f32,
    answer: &mut [f32],
    added: &mut [u8],
)
    requires { InAnswer cell answer.old added.old }
    ensures { GainedCell cell distance budget amount answer.old added.old answer.new added.new }
{
    let at = cell as usize;
    if gains(distance, budget, added[at]) {
        added[at] = ADDED;
        answer[at] = answer[at] + amount;
    }
}

// Takes cells until nothing waits; each that is within the budget gains the amount. The answer is how many were taken. The loop
// is like that of `run_listing`: one function for both would take the step as a closure over two lent slices, and have to say for
// any closure what the two contracts say of these steps.
pub fn run_gaining(
    search: Search,
    obstacles: &[u8],
    times: &[f32],
    amount: f32,
    answer: &mut [f32],
    distances: &mut [f32],
    carried: &mut [f32],
    marks: &mut [u8],
    added: &mut [u8],
    queue: &mut [u32],
    ring: Ring,
) -> u64
    requires { Gaining search (terrain obstacles.now times.now) answer.old added.old
        (buffers distances.old carried.old marks.old queue.old ring) }
    ensures { GainedAll search (terrain obstacles.now times.now) amount answer.old
        (buffers distances.old carried.old marks.old queue.old ring)
        answer.new distances.new carried.new marks.new added.new queue.new result }
{
    let ground = Terrain { obstacles, times };
    let mut b = Buffers {
        distances,
        carried,
        marks,
        queue,
        ring,
    };
    let mut takes: u64 = 0;
    while !b.ring.is_empty() {
        let took = take_next::<PlusTimeOrQuarter, Nothing, false>(search, ground, &mut b);
        gain_cell(
            took.cell,
            took.distance,
            search.limit,
            amount,
            answer,
            added,
        );
        takes += 1;
    }
    takes
}
