// A search for values, once no test refuses.
ghost use Rattle.calls.specs.Promise.{slice};
ghost use Rattle.spread.specs.Promise.{grids};
ghost use Rattle.values.specs.Promise.{Searches, searched, PromisedValues};

use calls::{Counts, fill, settle};
use spread::{Grids, Search, spread};

// Finds the values and leaves the work buffers zero. The rule avoids nothing: what is lent for the obstacles is never read,
// nor what is lent for the times where the rule reads none.
pub fn search_values(
    search: Search,
    targets: &[u8],
    times: &[f32],
    values: &[f32],
    answer: &mut [f32],
    distances: &mut [f32],
    marks: &mut [u8],
    queue: &mut [u32],
) -> Counts
    requires { Searches search (grids targets.now targets.now times.now values.now) answer.old distances.old marks.old queue.old }
    ensures { PromisedValues (Ok result) (slice answer.old answer.new) (slice distances.old distances.new) (slice marks.old marks.new) (slice queue.old queue.new) (searched search (grids targets.now targets.now times.now values.now)) }
{
    let grids = Grids {
        targets,
        obstacles: targets,
        times,
        values,
    };
    let takes = spread(search, grids, distances, answer, marks, queue);
    settle(answer);
    fill(distances, 0.0);
    fill(marks, 0);
    fill(queue, 0);
    Counts { takes }
}
