// Cells at no edge are taken in a loop of their own.
ghost use Rattle.spread.specs.Steps.{ground_of, numbers};
ghost use Rattle.spread.specs.Buffers.{held, SameLoans};
ghost use Rattle.spread.specs.Loop.{TakingSomeBy, TookUpTo};

use crate::buffers::{Buffers, Terrain};
use crate::formulas::Formula;
use crate::search::Search;
use crate::steps::Avoids;
use crate::take::{is_next_inner, take_inner_cell};

// Takes cells at no edge, until one at an edge is next or nothing waits; at most so many. The answer is how many.
pub fn take_inner<F: Formula, A: Avoids, const CARRYING: bool>(
    search: Search,
    ground: Terrain<'_>,
    b: &mut Buffers<'_>,
    most: u64,
) -> u64
    requires { TakingSomeBy search (numbers F.number A.number CARRYING) (ground_of ground) (held b.old) }
    ensures does { TookUpTo search (ground_of ground.entry) most (held b.old) (held b.new) result }
    ensures same { SameLoans b.old b.new }
{
    let mut takes: u64 = 0;
    // Takes are counted, and no index: it ends by what waits.
    while takes < most && is_next_inner(search.size, b) {
        let _took = take_inner_cell::<F, A, CARRYING>(search, ground, b);
        takes += 1;
    }
    takes
}
