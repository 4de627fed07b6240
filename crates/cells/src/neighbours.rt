// A cell's neighbours, in the order in which they are tried.
ghost use Rattle.std.specs.Prelude.{◌≡◌};
ghost use Rattle.std.specs.Int.Signed.{mag};
ghost use Rattle.rules.specs.Cells as Cells;
ghost use Rattle.cells.specs.Neighbours.{CellOf, place_of, Lists};
ghost use Rattle.cells.specs.Storing.{InGrid, Stepping, Leads, Storing, Stored};
ghost use Rattle.cells.specs.Interior.{Interior, Between, SaysInner, SaysInterior};

use rules::Size;

// The offsets of the neighbours, row and column each, in the order in which they are tried.
pub const OFFSETS: [[i32; 2]; 8] = [
    [0, 1], // right
    [0, -1], // left
    [1, 0], // below
    [-1, 0], // above
    [1, 1], // below right
    [-1, 1], // above right
    [1, -1], // below left
    [-1, -1], // above left
];

// How many of them lead straight: the first. The others lead diagonally.
pub const STRAIGHT: usize = 4;

// The neighbours that there are: up to `straight` those to the sides, below and above, up to `count` the
// diagonal ones. They stand in an array, by value: there is no heap.
#[derive(Clone, Copy)]
pub struct Neighbours {
    pub cells: [u32; 8],
    pub straight: usize,
    pub count: usize,
}

// Whether k is one of the rows, or columns, before `end`.
fn inside(end: i32, k: i32) -> bool
    ensures { result ≡ Cells.within end k }
{
    0 <= k && k < end
}

// The row and the column of a cell.
#[derive(Clone, Copy)]
pub struct Place {
    pub row: i32,
    pub col: i32,
}

// Where a cell stands. The column is what is left of the index, so that the compiler sees the index again where one is made of both.
pub fn place_of(size: Size, cell: u32) -> Place
    requires { CellOf size cell }
    ensures { result ≡ place_of size cell }
{
    let cols = size.cols as u32;
    let row = cell / cols;
    Place {
        row: row as i32,
        col: (cell - row * cols) as i32,
    }
}

// The index of the cell at a place.
fn index(size: Size, place: Place) -> u32
    requires { InGrid size place }
    ensures { result ≡ Cells.index size (mag place.row) (mag place.col) }
{
    (place.row * size.cols + place.col) as u32
}

// The cell at an offset from a place, unless the grid ends before. Both edges are tested before the row and the column
// become an index.
pub fn neighbour_at(size: Size, place: Place, offset: [i32; 2]) -> Option<u32>
    requires { Stepping size place offset }
    ensures { Leads size place offset result }
{
    let row = place.row + offset[0];
    let col = place.col + offset[1];
    if !inside(size.rows, row) {
        return None;
    }
    if !inside(size.cols, col) {
        return None;
    }
    Some(index(size, Place { row, col }))
}

// Stores the neighbours at some offsets from a place, those that are in the grid, behind those that were found.
fn store_neighbours(size: Size, place: Place, offsets: &[[i32; 2]], near: &mut Neighbours)
    requires { Storing size place offsets.now near.old }
    ensures { Stored size place offsets.now near.old near.new }
{
    for offset in offsets {
        if let Some(cell) = neighbour_at(size, place, *offset) {
            near.cells[near.count] = cell;
            near.count += 1;
        }
    }
}

// The neighbours of any cell, each offset of the table tried.
fn neighbours_by_table(size: Size, cell: u32) -> Neighbours
    requires { CellOf size cell }
    ensures { Lists size cell result }
{
    let place = place_of(size, cell);
    let mut near = Neighbours {
        cells: [0; 8],
        straight: 0,
        count: 0,
    };
    store_neighbours(size, place, &OFFSETS[..STRAIGHT], &mut near);
    near.straight = near.count;
    store_neighbours(size, place, &OFFSETS[STRAIGHT..], &mut near);
    near
}

// Whether k, one of the rows, or columns, before `end`, is neither the first nor the last.
fn is_inner(end: i32, k: i32) -> bool
    requires { Between end k }
    ensures { SaysInner end k result }
{
    0 < k && k + 1 < end
}

// Whether a cell is at no edge.
pub fn is_interior(size: Size, cell: u32) -> bool
    requires { CellOf size cell }
    ensures { SaysInterior size cell result }
{
    let place = place_of(size, cell);
    is_inner(size.rows, place.row) && is_inner(size.cols, place.col)
}

// The neighbours of a cell at no edge: all eight are there, the edges have been tested, so that no more is.
pub fn interior_neighbours(size: Size, cell: u32) -> Neighbours
    requires { Interior size cell }
    ensures { Lists size cell result }
{
    let place = place_of(size, cell);
    let mut cells = [0; 8];
    for (i, offset) in OFFSETS.iter().enumerate() {
        let there = Place {
            row: place.row + offset[0],
            col: place.col + offset[1],
        };
        cells[i] = index(size, there);
    }
    Neighbours {
        cells,
        straight: STRAIGHT,
        count: 8,
    }
}

// The neighbours of a cell, found faster where it is at no edge.
pub fn neighbours_of(size: Size, cell: u32) -> Neighbours
    requires { CellOf size cell }
    ensures { Lists size cell result }
{
    if is_interior(size, cell) {
        return interior_neighbours(size, cell);
    }
    neighbours_by_table(size, cell)
}
