// A grid's size: the bounds that it keeps, and the number of its cells.
ghost use Rattle.std.specs.Prelude.{◌≡◌};
ghost use Rattle.rules.specs.Sizes.{side_fits, in_bounds, same_size, count};
ghost use Rattle.cells.specs.Counting.{Countable};

use rules::Size;

// The most rows, and the most columns.
pub const SIDE_MAX: i32 = 32767;

// The most cells.
pub const CELLS_MAX: i32 = 1048576;

// Whether k rows, or k columns, are within the bounds.
fn side_fits(k: i32) -> bool
    ensures { result ≡ side_fits k }
{
    0 <= k && k <= SIDE_MAX
}

// Whether a size is within the bounds. The sides are tested first, so that their product fits.
pub fn in_bounds(size: Size) -> bool
    ensures { result ≡ in_bounds size }
{
    if !side_fits(size.rows) {
        return false;
    }
    if !side_fits(size.cols) {
        return false;
    }
    size.rows * size.cols <= CELLS_MAX
}

// Whether two sizes agree in rows and in columns.
pub fn same_size(a: Size, b: Size) -> bool
    ensures { result ≡ same_size a b }
{
    a == b
}

// The number of cells. Two sides that are not below 0 have a product that fits, within the bounds or not.
pub fn cell_count(size: Size) -> usize
    requires { Countable size }
    ensures { result ≡ count size }
{
    (size.rows as usize) * (size.cols as usize)
}
