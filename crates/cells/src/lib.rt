// Grids as the searches see them: their size, a cell's neighbours, and the cells that wait.
//
// The crate promises that a size is judged by the bounds (`in_bounds`, `same_size`, `cell_count`), that
// a cell's neighbours are those that the table of offsets leads to inside the grid, in its order
// (`neighbours_of`; `neighbour_at` is the one at any single step from a cell's row and column, which
// `place_of` tells), and that the ring serves cells in the order in which they came (`Ring::push`, `Ring::take`).
// Its laws, for the crates above, are in proofs/: that a neighbour is a cell of the grid, and what the
// ring's functions do to the list of the waiting cells.
#![tactic(auto)]

mod neighbours;
mod ring;
mod sizes;

pub use neighbours::{
    Neighbours, OFFSETS, Place, STRAIGHT, interior_neighbours, is_interior, neighbour_at,
    neighbours_of, place_of,
};
pub use ring::Ring;
pub use sizes::{CELLS_MAX, SIDE_MAX, cell_count, in_bounds, same_size};
