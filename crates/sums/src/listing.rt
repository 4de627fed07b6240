// The run from one mask cell: every cell that it takes is listed, once.
ghost use Rattle.spread.specs.Steps.{terrain};
ghost use Rattle.spread.specs.Buffers.{buffers};
ghost use Rattle.sums.specs.Listed.{Lists, ListedAll};

use cells::Ring;
use reach::list_cell;
use spread::{Buffers, Nothing, PlusHalfSum, Search, Terrain, take_next};

// How many cells a search took, and how many are listed.
#[derive(Clone, Copy)]
pub struct Reached {
    pub takes: u64,
    pub count: usize,
}

// Takes cells until nothing waits, and lists each at its first take. (Why this loop and that of gain.rt are two: there.)
pub fn run_listing(
    search: Search,
    obstacles: &[u8],
    times: &[f32],
    distances: &mut [f32],
    carried: &mut [f32],
    marks: &mut [u8],
    listed: &mut [u32],
    met: &mut [u32],
    queue: &mut [u32],
    ring: Ring,
) -> Reached
    requires { Lists search (terrain obstacles.now times.now) listed.old met.old
        (buffers distances.old carried.old marks.old queue.old ring) }
    ensures { ListedAll search (terrain obstacles.now times.now)
        (buffers distances.old carried.old marks.old queue.old ring)
        distances.new carried.new marks.new listed.new met.new queue.new result }
{
    let ground = Terrain { obstacles, times };
    let mut b = Buffers {
        distances,
        carried,
        marks,
        queue,
        ring,
    };
    let mut takes: u64 = 0;
    let mut entries: usize = 0;
    while !b.ring.is_empty() {
        let took = take_next::<PlusHalfSum, Nothing, false>(search, ground, &mut b);
        entries = list_cell(took.cell, met, listed, entries);
        takes += 1;
    }
    Reached {
        takes,
        count: entries,
    }
}
