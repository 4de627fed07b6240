// The neighbours of a cell that may be at an edge are tried as the table leads to them: no list of them is made.
ghost use Rattle.std.specs.Prelude.{option_to_list};
ghost use Rattle.spread.specs.Steps.{ground_of, numbers, steps_by, all_steps};
ghost use Rattle.spread.specs.Buffers.{held, SameLoans, scanning, Does};
ghost use Rattle.spread.specs.Loop.{left_label, EnteringThere, ScanningAll};

use crate::buffers::{Buffers, Terrain};
use crate::formulas::Formula;
use crate::relax::{Left, relax};
use crate::search::Search;
use crate::steps::Avoids;
use cells::{OFFSETS, STRAIGHT, neighbour_at, place_of};

// Tries what stands at an offset, if anything does.
fn relax_there<F: Formula, A: Avoids, const CARRYING: bool>(
    search: Search,
    diagonal: bool,
    ground: Terrain<'_>,
    left: Left,
    there: Option<u32>,
    b: &mut Buffers<'_>,
)
    requires { EnteringThere search (numbers F.number A.number CARRYING) (ground_of ground) left.cell there (held b.old) }
    ensures does { Does search (scanning (left_label search left) (steps_by search (ground_of ground.entry) diagonal left.cell (option_to_list there))) (held b.old) (held b.new) }
    ensures same { SameLoans b.old b.new }
{
    match there {
        Some(cell) => relax::<F, A, CARRYING>(search, diagonal, ground, left, cell, b),
        None => {}
    }
}

// Tries all neighbours.
// Inlined: see lib.rt.
#[inline(always)]
pub fn scan_edge<F: Formula, A: Avoids, const CARRYING: bool>(
    search: Search,
    ground: Terrain<'_>,
    left: Left,
    b: &mut Buffers<'_>,
)
    requires { ScanningAll search (numbers F.number A.number CARRYING) (ground_of ground) left.cell (held b.old) }
    ensures does { Does search (scanning (left_label search left) (all_steps search (ground_of ground.entry) left.cell)) (held b.old) (held b.new) }
    ensures same { SameLoans b.old b.new }
{
    let place = place_of(search.size, left.cell);
    for (k, offset) in OFFSETS.iter().enumerate() {
        let diagonal = STRAIGHT <= k;
        let there = neighbour_at(search.size, place, *offset);
        relax_there::<F, A, CARRYING>(search, diagonal, ground, left, there, b);
    }
}
