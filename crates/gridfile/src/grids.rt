// The fields 04 to 07: the grids.
ghost use Rattle.std.specs.Prelude.{◌≡◌, ◌≤◌, length};
ghost use Rattle.gridfile.specs.Fields.{fields_from};
ghost use Rattle.gridfile.specs.Request.{search_number, small_bytes, small_floats, grids_fit};
ghost use Rattle.gridfile.specs.Lookups.{next_grid, grids_in};

use crate::fields::{Part, field_at};
use crate::searches::Search;
use crate::tags;

// Where each grid stands in the file. A grid that the search has not is empty, and starts at 0.
#[derive(Clone, Copy)]
pub struct Grids {
    pub targets: Part,
    pub obstacles: Part,
    pub times: Part,
    pub values: Part,
}

// The most bytes of a grid field.
pub const FIELD_MAX: usize = 4096;

// The grid of this tag where the search has it, which is then the field at this place, and the place of
// the next field.
fn next_grid(file: &[u8], at: usize, tag: u8, has: bool) -> Option<(Part, usize)>
    requires { at ≤ length file.now }
    ensures { result ≡ next_grid file.now at tag has }
{
    if !has {
        return Some((Part { start: 0, len: 0 }, at));
    }
    let part = field_at(file, at, tag)?;
    Some((part, part.start + part.len))
}

// The grids from a place on, if they are exactly the search's and nothing comes after them.
pub fn find_grids(file: &[u8], at: usize, search: Search) -> Option<Grids>
    requires { at ≤ length file.now }
    ensures { result ≡ grids_in (search_number search) (fields_from file.now at) }
{
    let has = search.grids();
    let (targets, at) = next_grid(file, at, tags::TARGETS, has.targets)?;
    let (obstacles, at) = next_grid(file, at, tags::OBSTACLES, has.obstacles)?;
    let (times, at) = next_grid(file, at, tags::TIMES, has.times)?;
    let (values, end) = next_grid(file, at, tags::VALUES, has.values)?;
    if end != file.len() {
        return None;
    }
    Some(Grids {
        targets,
        obstacles,
        times,
        values,
    })
}

// Whether a byte grid's field has a length that it may have.
fn small_bytes(part: Part) -> bool
    ensures { result ≡ small_bytes part }
{
    part.len <= FIELD_MAX
}

// The same of a float grid's: a multiple of 4.
fn small_floats(part: Part) -> bool
    ensures { result ≡ small_floats part }
{
    small_bytes(part) && part.len % 4 == 0
}

// Whether every grid's field has a length that it may have.
#[tactic(auto, unfolding(crate::specs::Request::grids_fit))]
pub fn grids_fit(grids: Grids) -> bool
    ensures { result ≡ grids_fit grids }
{
    small_bytes(grids.targets)
        && small_bytes(grids.obstacles)
        && small_floats(grids.times)
        && small_floats(grids.values)
}
