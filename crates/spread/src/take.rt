// One take: the cell that waited longest is taken, and its neighbours are tried. A cell at no edge goes a faster way.
ghost use Rattle.spread.specs.Steps.{ground_of, numbers};
ghost use Rattle.spread.specs.Buffers.{held, SameLoans};
ghost use Rattle.spread.specs.Loop.{CanLeave, LeftCell, Looking, SaysNextInner, TakingBy, TakingInner, TookCell};

use crate::buffers::{Buffers, Terrain};
use crate::formulas::Formula;
use crate::relax::Left;
use crate::scan::scan_listed;
use crate::scan_edge::scan_edge;
use crate::search::Search;
use crate::steps::Avoids;
use crate::waiting::take_first;
use cells::{interior_neighbours, is_interior};
use rules::Size;

// A taken cell, and the distance that it had when it was taken.
#[derive(Clone, Copy)]
pub struct TakenCell {
    pub cell: u32,
    pub distance: f32,
}

// The label of a cell: its distance, and the value that goes along if one does.
fn leave<const CARRYING: bool>(b: &Buffers<'_>, cell: u32) -> Left
    requires { CanLeave CARRYING b.now.distances.now b.now.carried.now cell }
    ensures { LeftCell CARRYING b.now.distances.now b.now.carried.now cell result }
{
    let at = cell as usize;
    let distance = b.distances[at];
    if CARRYING {
        return Left {
            cell,
            distance,
            value: b.carried[at],
        };
    }
    Left {
        cell,
        distance,
        value: 0.0,
    }
}

// Whether a cell waits, and the one that is next is at no edge.
pub fn is_next_inner(size: Size, b: &Buffers<'_>) -> bool
    requires { Looking size b.now.queue.now b.now.ring }
    ensures { SaysNextInner size b.now.queue.now b.now.ring result }
{
    if b.ring.is_empty() {
        return false;
    }
    let next = b.ring.first(b.queue);
    is_interior(size, next)
}

// Takes the next cell, which is at no edge.
// Inlined: see lib.rt.
#[inline(always)]
pub fn take_inner_cell<F: Formula, A: Avoids, const CARRYING: bool>(
    search: Search,
    ground: Terrain<'_>,
    b: &mut Buffers<'_>,
) -> TakenCell
    requires { TakingInner search (numbers F.number A.number CARRYING) (ground_of ground) (held b.old) }
    ensures does { TookCell search (ground_of ground.entry) (held b.old) (held b.new) result }
    ensures same { SameLoans b.old b.new }
{
    let cell = take_first(b);
    let left = leave::<CARRYING>(b, cell);
    let around = interior_neighbours(search.size, cell);
    scan_listed::<F, A, CARRYING>(search, ground, left, &around.cells, 4, 8, b);
    TakenCell {
        cell,
        distance: left.distance,
    }
}

// Takes the next cell, at an edge or not. It differs from the take above in what is scanned: a scan that was handed in would be out of line.
// Inlined: see lib.rt.
#[inline(always)]
pub fn take_edge_cell<F: Formula, A: Avoids, const CARRYING: bool>(
    search: Search,
    ground: Terrain<'_>,
    b: &mut Buffers<'_>,
) -> TakenCell
    requires { TakingBy search (numbers F.number A.number CARRYING) (ground_of ground) (held b.old) }
    ensures does { TookCell search (ground_of ground.entry) (held b.old) (held b.new) result }
    ensures same { SameLoans b.old b.new }
{
    let cell = take_first(b);
    let left = leave::<CARRYING>(b, cell);
    scan_edge::<F, A, CARRYING>(search, ground, left, b);
    TakenCell {
        cell,
        distance: left.distance,
    }
}

// Takes the next cell, the faster way if it is at no edge.
pub fn take_next<F: Formula, A: Avoids, const CARRYING: bool>(
    search: Search,
    ground: Terrain<'_>,
    b: &mut Buffers<'_>,
) -> TakenCell
    requires { TakingBy search (numbers F.number A.number CARRYING) (ground_of ground) (held b.old) }
    ensures does { TookCell search (ground_of ground.entry) (held b.old) (held b.new) result }
    ensures same { SameLoans b.old b.new }
{
    if is_next_inner(search.size, b) {
        return take_inner_cell::<F, A, CARRYING>(search, ground, b);
    }
    take_edge_cell::<F, A, CARRYING>(search, ground, b)
}
