// The listed neighbours of a cell are tried, the straight ones first.
ghost use Rattle.spread.specs.Steps.{ground_of, numbers};
ghost use Rattle.spread.specs.Buffers.{held, SameLoans, scanning, Does};
ghost use Rattle.spread.specs.Loop.{left_label, listed_steps, Scanning};

use crate::buffers::{Buffers, Terrain};
use crate::formulas::Formula;
use crate::relax::{Left, relax};
use crate::search::Search;
use crate::steps::Avoids;

// Tries the listed cells before `count`: those before `straight` straight, the others diagonally.
// Inlined: see lib.rt.
#[inline(always)]
pub fn scan_listed<F: Formula, A: Avoids, const CARRYING: bool>(
    search: Search,
    ground: Terrain<'_>,
    left: Left,
    cells: &[u32; 8],
    straight: usize,
    count: usize,
    b: &mut Buffers<'_>,
)
    requires { Scanning search (numbers F.number A.number CARRYING) (ground_of ground) left.cell cells.now straight count (held b.old) }
    ensures does { Does search (scanning (left_label search left) (listed_steps search (ground_of ground.entry) left.cell cells.now straight count)) (held b.old) (held b.new) }
    ensures same { SameLoans b.old b.new }
{
    // By index, since it tells straight from diagonal.
    for k in 0..count {
        let diagonal = straight <= k;
        relax::<F, A, CARRYING>(search, diagonal, ground, left, cells[k], b);
    }
}
