// One neighbour is tried: its candidate is stored if it is below the neighbour's distance.
ghost use Rattle.std.specs.Prelude.{◌≡◌, true, cond, [], ◌∷◌, ◌<◌, length, set};
ghost use Rattle.spread.specs.Steps.{ground_of, numbers, length_of, steps_by};
ghost use Rattle.spread.specs.Buffers.{held, SameLoans, scanning, Does};
ghost use Rattle.spread.specs.Loop.{left_label, Storing, Stored, Entering};

use crate::buffers::{Buffers, Terrain};
use crate::formulas::Formula;
use crate::search::Search;
use crate::steps::Avoids;
use crate::waiting::wait;
use binary32::{DIAGONAL, STRAIGHT};

// The cell that is left, with the label that it had when it was taken.
#[derive(Clone, Copy)]
pub struct Left {
    pub cell: u32,
    pub distance: f32,
    pub value: f32,
}

// Stores the value that goes along, if one does.
pub fn carry<const CARRYING: bool>(cell: u32, value: f32, carried: &mut [f32])
    requires { CARRYING ≡ true → cell < length carried.old }
    ensures { carried.new ≡ cond CARRYING (set carried.old cell value) carried.old }
{
    let at = cell as usize;
    if CARRYING {
        carried[at] = value;
    }
}

// How long a step is.
fn step_length(diagonal: bool) -> f32
    ensures { result ≡ length_of diagonal }
{
    if diagonal {
        return DIAGONAL;
    }
    STRAIGHT
}

// A cell takes a label, and waits.
fn store<const CARRYING: bool>(cell: u32, distance: f32, value: f32, b: &mut Buffers<'_>)
    requires { Storing CARRYING cell (held b.old) }
    ensures does { Stored CARRYING cell distance value (held b.old) (held b.new) }
    ensures same { SameLoans b.old b.new }
{
    let at = cell as usize;
    b.distances[at] = distance;
    carry::<CARRYING>(cell, value, b.carried);
    b.ring = wait(cell, b.marks, b.queue, b.ring);
}

// Tries a cell over a step: its candidate is stored if it is below the cell's distance. The obstacles beside the
// step are looked at last, since few candidates come so far.
pub fn relax<F: Formula, A: Avoids, const CARRYING: bool>(
    search: Search,
    diagonal: bool,
    ground: Terrain<'_>,
    left: Left,
    cell: u32,
    b: &mut Buffers<'_>,
)
    requires { Entering search (numbers F.number A.number CARRYING) (ground_of ground) left.cell cell (held b.old) }
    ensures does { Does search (scanning (left_label search left) (steps_by search (ground_of ground.entry) diagonal left.cell (cell ∷ []))) (held b.old) (held b.new) }
    ensures same { SameLoans b.old b.new }
{
    if !A::may_enter(ground.obstacles, cell) {
        return;
    }
    let at = cell as usize;
    let distance = F::candidate(ground.times, left, step_length(diagonal), cell);
    if b.distances[at] > distance {
        if A::is_blocked(diagonal, search.size, ground.obstacles, left.cell, cell) {
            return;
        }
        store::<CARRYING>(cell, distance, left.value, b);
    }
}
