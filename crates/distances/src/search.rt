// A search over distances, once no test refuses.
ghost use Rattle.calls.specs.Promise.{slice, Promised};
ghost use Rattle.spread.specs.Promise.{grids};
ghost use Rattle.distances.specs.Promise.{unread, Searches, found, searched};

use calls::{Counts, fill, scale, settle};
use rules::Spacing;
use spread::{Grids, Search, spread};

// Finds the distances, and leaves the work buffers zero.
fn find_distances(
    search: Search,
    targets: &[u8],
    obstacles: &[u8],
    times: &[f32],
    answer: &mut [f32],
    marks: &mut [u8],
    queue: &mut [u32],
) -> Counts
    requires { Searches search (grids targets.now obstacles.now times.now unread) answer.old marks.old queue.old }
    ensures { Promised (Ok result) (slice answer.old answer.new) (slice marks.old marks.new) (slice queue.old queue.new) (found search (grids targets.now obstacles.now times.now unread)) }
{
    let values = [0.0; 1];
    let mut carried = [0.0; 1];
    let takes = spread(
        search,
        Grids {
            targets,
            obstacles,
            times,
            values: &values,
        },
        answer,
        &mut carried,
        marks,
        queue,
    );
    fill(marks, 0);
    fill(queue, 0);
    Counts { takes }
}

// The same where no rule reads times, and the distances are scaled.
pub fn search_distances(
    search: Search,
    targets: &[u8],
    obstacles: &[u8],
    spacing: Spacing,
    answer: &mut [f32],
    marks: &mut [u8],
    queue: &mut [u32],
) -> Counts
    requires { Searches search (grids targets.now obstacles.now unread unread) answer.old marks.old queue.old }
    ensures { Promised (Ok result) (slice answer.old answer.new) (slice marks.old marks.new) (slice queue.old queue.new) (searched search (grids targets.now obstacles.now unread unread) spacing) }
{
    let times = [0.0; 1];
    let found = find_distances(search, targets, obstacles, &times, answer, marks, queue);
    scale(answer, spacing);
    found
}

// The same where no rule reads obstacles, and the distances are not scaled.
pub fn search_travel(
    search: Search,
    targets: &[u8],
    times: &[f32],
    answer: &mut [f32],
    marks: &mut [u8],
    queue: &mut [u32],
) -> Counts
    requires { Searches search (grids targets.now targets.now times.now unread) answer.old marks.old queue.old }
    ensures { Promised (Ok result) (slice answer.old answer.new) (slice marks.old marks.new) (slice queue.old queue.new) (found search (grids targets.now targets.now times.now unread)) }
{
    let found = find_distances(search, targets, targets, times, answer, marks, queue);
    settle(answer);
    found
}
