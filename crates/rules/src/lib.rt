// Document 01's rules for the eight searches, as definitions, and the records in which calls speak.
//
// The crate has no function. specs/ says, sentence by sentence and in document 01's order, what each
// search answers: its refusals, its starting state, its steps, its takes and its answer grid. All of
// it computes. proofs/ has the grids on which that was tried, and what holds of the rules: demand 3
// for searches 1 to 3, that a value of searches 4 to 6 is that of a closest target, and that every
// search's takes are within the square, and 0 where nothing starts.
#![tactic(auto)]

// Rows and columns are signed 32-bit numbers.
#[derive(Clone, Copy, PartialEq, Eq)]
pub struct Size {
    pub rows: i32,
    pub cols: i32,
}

// A grid that is lent: its size, and its cells, row after row. Whether it has as many cells as its size says is for a call to
// judge.
#[derive(Clone, Copy)]
pub struct Grid<'a, T> {
    pub size: Size,
    pub cells: &'a [T],
}

// Cell size and limit travel together as one record.
#[derive(Clone, Copy)]
pub struct Spacing {
    pub cell_size: f32,
    pub limit: f32,
}

// Whether a way may pass between two obstacles that meet at a corner.
#[derive(Clone, Copy, PartialEq, Eq)]
pub enum BarrierDiagonals {
    Include,
    Exclude,
}
