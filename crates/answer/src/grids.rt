// The grids of a request, out of the file.
ghost use Rattle.std.specs.Prelude.{◌≡◌, ◌≤◌, length};
ghost use Rattle.gridfile.specs.Request.{parsed};
ghost use Rattle.gridfile.specs.Contents.{written_out};
ghost use Rattle.answer.specs.Answering.{longest, outcome_of};
ghost use Rattle.answer.specs.Lending.{OutcomeSent};

use crate::search::search;
use gridfile::{FIELD_MAX, Request, copy_bytes, read_floats};

// The most bytes of a grid field. A byte grid of another length than n is for the search to refuse.
const BYTES: usize = FIELD_MAX;

// The most floats of one.
const FLOATS: usize = FIELD_MAX / 4;

// Answers the request of a file.
pub fn answer_request(request: Request, input: &[u8], output: &mut [u8]) -> usize
    requires asked { parsed input.now ≡ Ok request }
    requires room { longest ≤ length output.old }
    ensures { OutcomeSent (outcome_of (written_out input.now (Ok request))) output.old output.new result }
{
    let mut targets = [0u8; BYTES];
    let mut obstacles = [0u8; BYTES];
    let mut times = [0.0f32; FLOATS];
    let mut values = [0.0f32; FLOATS];
    let grids = request.grids;
    copy_bytes(input, grids.targets, &mut targets);
    copy_bytes(input, grids.obstacles, &mut obstacles);
    read_floats(input, grids.times, &mut times);
    read_floats(input, grids.values, &mut values);
    search(
        request,
        &targets[..grids.targets.len],
        &obstacles[..grids.obstacles.len],
        &times[..grids.times.len / 4],
        &values[..grids.values.len / 4],
        output,
    )
}
