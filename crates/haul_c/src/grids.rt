// The grids of the exports.
ghost use Rattle.std.specs.Prelude.{◌≡◌};
ghost use Rattle.haul_c.specs.Export.{size};

use rules::{Grid, Size};

// The grid with these rows, these columns and these cells.
pub fn sized<T>(rows: i32, columns: i32, cells: &[T]) -> Grid<'_, T>
    ensures size { result.size ≡ size rows columns }
    ensures cells { result.cells.now ≡ cells.now }
{
    let size = Size {
        rows,
        cols: columns,
    };
    Grid { size, cells }
}
