// A whole case: its settings, its grids and its stored answer.
ghost use Rattle.std.specs.Prelude.{◌≤◌, ◌<◌, length, IfOk};
ghost use Rattle.replay.specs.Buffers.{most_answer_cells, most_stored_cells};
ghost use Rattle.replay.specs.Reading.{GoesOn};

use crate::grids::{CELLS, Cell, SLOTS};
use crate::settings::Settings;
use crate::stored::Told;
use crate::words::{Malformed, Reader};
use crate::{grids, kinds, settings, stored};
use rules::Grid;

// Where the cells of a case's grids are put, and the bits that its answer must hold after the call.
#[derive(Drop)]
pub struct Room {
    targets: [u8; SLOTS],
    obstacles: [u8; SLOTS],
    times: [f32; SLOTS],
    values: [f32; SLOTS],
    bits: [u32; CELLS],
}

impl Room {
    // All of it zeros.
    pub fn new() -> Room {
        Room {
            targets: [0; SLOTS],
            obstacles: [0; SLOTS],
            times: [0.0; SLOTS],
            values: [0.0; SLOTS],
            bits: [0; CELLS],
        }
    }
}

// A case that was read, with empty grids where its search has none.
#[derive(Clone, Copy)]
pub struct Case<'a> {
    pub settings: Settings,
    pub targets: Grid<'a, u8>,
    pub obstacles: Grid<'a, u8>,
    pub times: Grid<'a, f32>,
    pub values: Grid<'a, f32>,
    pub told: Told,
    pub bits: &'a [u32],
    ghost few_cells: { length bits.now ≤ most_answer_cells },
}

// Reads the line of a grid, where the search has it.
fn grid_if<'a, T: Cell>(
    has: bool,
    reader: &mut Reader<'_>,
    name: &[u8],
    room: &'a mut [T],
) -> Result<Grid<'a, T>, Malformed>
    ensures goes_on { GoesOn reader.old reader.new }
    ensures fits { IfOk result (λ grid. length grid.cells.now ≤ length room.old) }
{
    if has {
        grids::read_grid(reader, name, room)
    } else {
        Ok(grids::no_grid(room))
    }
}

// Reads the case that comes next.
pub fn read_case<'a>(reader: &mut Reader<'_>, room: &'a mut Room) -> Result<Case<'a>, Malformed>
    ensures goes_on { GoesOn reader.old reader.new }
    ensures further { IfOk result (λ _. reader.old.pos < reader.new.pos) }
    ensures targets_fit { IfOk result (λ case. length case.targets.cells.now ≤ most_stored_cells) }
    ensures obstacles_fit { IfOk result (λ case. length case.obstacles.cells.now ≤ most_stored_cells) }
    ensures times_fit { IfOk result (λ case. length case.times.cells.now ≤ most_stored_cells) }
    ensures values_fit { IfOk result (λ case. length case.values.cells.now ≤ most_stored_cells) }
{
    let Room {
        targets,
        obstacles,
        times,
        values,
        bits,
    } = room;
    let settings = settings::head(reader)?;
    let has = kinds::grids_of(settings.search);
    let targets = grid_if(has.targets, reader, b"targets ", targets)?;
    let obstacles = grid_if(has.obstacles, reader, b"obstacles ", obstacles)?;
    let times = grid_if(has.times, reader, b"times ", times)?;
    let values = grid_if(has.values, reader, b"values ", values)?;
    // The answer has the size of the search's first grid.
    let size = if has.targets {
        targets.size
    } else {
        times.size
    };
    let n = grids::cell_count(size);
    let bits = &mut bits[..n];
    let told = stored::stored_answer(reader, bits)?;
    Ok(Case {
        settings,
        targets,
        obstacles,
        times,
        values,
        told,
        bits,
    })
}
