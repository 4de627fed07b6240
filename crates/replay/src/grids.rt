// The grids of a case, read into lent buffers.
ghost use Rattle.std.specs.Prelude.{◌≤◌, length, IfOk};
ghost use Rattle.replay.specs.Buffers.{most_answer_cells};
ghost use Rattle.replay.specs.Reading.{GoesOn};

use crate::words::{Malformed, Reader};
use rules::{Grid, Size};

// The most cells of an answer.
pub const CELLS: usize = 1024;

// The most slots of a queue, which has one more, and the most cells of a stored grid.
pub const SLOTS: usize = CELLS + 1;

// What the text has for a cell: a number up to 255 for a byte, and its bits for a float.
pub trait Cell: Copy {
    fn read(reader: &mut Reader<'_>) -> Result<Self, Malformed>
        ensures { GoesOn reader.old reader.new };
}

impl Cell for u8 {
    fn read(reader: &mut Reader<'_>) -> Result<Self, Malformed> {
        Ok(reader.decimal(255)? as u8)
    }
}

impl Cell for u32 {
    fn read(reader: &mut Reader<'_>) -> Result<Self, Malformed> {
        reader.hex()
    }
}

impl Cell for f32 {
    fn read(reader: &mut Reader<'_>) -> Result<Self, Malformed> {
        Ok(binary32::of_bits(reader.hex()?))
    }
}

// Reads as many cells as `cells` holds, a space before each.
pub fn read_cells<T: Cell>(reader: &mut Reader<'_>, cells: &mut [T]) -> Result<(), Malformed>
    ensures { GoesOn reader.old reader.new }
{
    for cell in cells.iter_mut() {
        reader.literal(b" ")?;
        *cell = T::read(reader)?;
    }
    Ok(())
}

// The grid that a search does not have.
pub fn no_grid<T>(room: &[T]) -> Grid<'_, T>
    ensures { length result.cells.now ≤ 0 }
{
    Grid {
        size: Size { rows: 0, cols: 0 },
        cells: &room[..0],
    }
}

// Reads a grid's line: its name, its size, the number of its cells, which `room` holds at least, and
// the cells, which go to the start of `room`.
pub fn read_grid<'a, T: Cell>(
    reader: &mut Reader<'_>,
    name: &[u8],
    room: &'a mut [T],
) -> Result<Grid<'a, T>, Malformed>
    ensures goes_on { GoesOn reader.old reader.new }
    ensures fits { IfOk result (λ grid. length grid.cells.now ≤ length room.old) }
{
    reader.literal(name)?;
    let rows = reader.signed()?;
    reader.literal(b" ")?;
    let cols = reader.signed()?;
    reader.literal(b" ")?;
    let len = reader.decimal(room.len() as u64)? as usize;
    let cells = &mut room[..len];
    read_cells(reader, cells)?;
    reader.literal(b"\n")?;
    Ok(Grid {
        size: Size { rows, cols },
        cells,
    })
}

// Rows times columns, and 0 where that is more than an answer can have here.
pub fn cell_count(size: Size) -> usize
    ensures { result ≤ most_answer_cells }
{
    let rows = usize::try_from(size.rows).unwrap_or(0);
    let cols = usize::try_from(size.cols).unwrap_or(0);
    match rows.checked_mul(cols) {
        Some(n) if n <= CELLS => n,
        _ => 0,
    }
}
