// The loop: cells are taken until nothing waits.
ghost use Rattle.spread.specs.Steps.{ground_of, numbers};
ghost use Rattle.spread.specs.Buffers.{held, SameLoans};
ghost use Rattle.spread.specs.Loop.{Running, RunningBy, Ran};
ghost use Rattle.spread.specs.Promise.{grids_of, Spreads, Spread};

use crate::begin::begin_cells;
use crate::buffers::{Buffers, Grids, Terrain};
use crate::formulas::{Formula, PlusHalfSum, PlusStep, PlusTime, PlusTimeOrQuarter};
use crate::search::{Rule, Search};
use crate::steps::{Avoids, BetweenObstacles, Nothing, Obstacles};
use crate::take::take_edge_cell;
use crate::take_inner::take_inner;
use cells::cell_count;
use rules::BarrierDiagonals;

// Takes cells until nothing waits; the answer is how many were taken. Those at no edge are taken in a loop of their own.
// Inlined: see lib.rt.
#[inline(always)]
fn run<F: Formula, A: Avoids, const CARRYING: bool>(
    search: Search,
    ground: Terrain<'_>,
    b: &mut Buffers<'_>,
) -> u64
    requires { RunningBy search (numbers F.number A.number CARRYING) (ground_of ground) (held b.old) }
    ensures does { Ran search (ground_of ground.entry) (held b.old) b.new.distances.now b.new.carried.now b.new.marks.now b.new.queue.now result }
    ensures same { SameLoans b.old b.new }
{
    let cells = cell_count(search.size) as u64;
    let most = cells * cells;
    let mut takes: u64 = 0;
    // Takes are counted, and no index: it ends when nothing waits.
    while takes < most {
        takes += take_inner::<F, A, CARRYING>(search, ground, b, most - takes);
        if takes < most {
            if b.ring.is_empty() {
                return takes;
            }
            let _took = take_edge_cell::<F, A, CARRYING>(search, ground, b);
            takes += 1;
        }
    }
    takes
}

// The same by the rule, which is matched here, once, so that in each arm the loop has types for what the rule permits
// and how it adds.
fn run_by_rule(search: Search, ground: Terrain<'_>, b: &mut Buffers<'_>) -> u64
    requires { Running search (ground_of ground) (held b.old) }
    ensures does { Ran search (ground_of ground.entry) (held b.old) b.new.distances.now b.new.carried.now b.new.marks.now b.new.queue.now result }
    ensures same { SameLoans b.old b.new }
{
    let rule = search.rule;
    match rule {
        Rule::Plain => run::<PlusStep, Nothing, false>(search, ground, b),
        Rule::Obstacles(BarrierDiagonals::Include) => {
            run::<PlusStep, Obstacles, false>(search, ground, b)
        }
        Rule::Obstacles(BarrierDiagonals::Exclude) => {
            run::<PlusStep, BetweenObstacles, false>(search, ground, b)
        }
        Rule::HalfSum | Rule::FromMaskCell(_) => {
            run::<PlusHalfSum, Nothing, false>(search, ground, b)
        }
        Rule::Closest => run::<PlusStep, Nothing, true>(search, ground, b),
        Rule::ByTime => run::<PlusTime, Nothing, true>(search, ground, b),
        Rule::FromAmount(_) => run::<PlusTimeOrQuarter, Nothing, false>(search, ground, b),
    }
}

// Spreads from the starting cells over the whole grid: the distances, the values that go along, and the answer, how many cells were taken.
pub fn spread(
    search: Search,
    grids: Grids<'_>,
    distances: &mut [f32],
    carried: &mut [f32],
    marks: &mut [u8],
    queue: &mut [u32],
) -> u64
    requires { Spreads search (grids_of grids) distances.old carried.old marks.old queue.old }
    ensures { Spread search
        (grids_of grids.entry)
        carried.old
        distances.new carried.new marks.new queue.new result }
{
    let ring = begin_cells(search, grids, distances, carried, marks, queue);
    let mut b = Buffers {
        distances,
        carried,
        marks,
        queue,
        ring,
    };
    let ground = Terrain {
        obstacles: grids.obstacles,
        times: grids.times,
    };
    run_by_rule(search, ground, &mut b)
}
