// The loop of all searches: cells are taken from the queue and their neighbours tried, until nothing waits.
//
// A search is a rule over its grids. `spread` begins with the starting cells and runs to the end; it
// promises the labels and the takes of the rule's net, whatever the buffers held before
// (specs/Promise.antt). Each function below it promises that the buffers hold, after it, the machine's
// operation on the state that they held before (specs/Buffers.antt).
//
// `begin_cells` and `take_next` are for a loop of one's own that does something with each cell that is taken: proofs/Running.antt and
// proofs/Tracing.antt have the laws for it. Where many searches from one cell each follow one another, `begin_clear` begins once for all,
// and `begin_at` begins each of them, if between two the cells that the last one reached are put back (`Clear` in specs/Begin.antt).
//
// What a search adds, avoids and carries is a type (`Formula`, `Avoids`, CARRYING), so that each has a loop of its own. The buffers are one
// struct of loans: what works in it is inlined up to the function that made it, where its slices are locals. Called, a take has up to a third
// more instructions.
#![tactic(auto)]

mod begin;
mod buffers;
mod first;
mod formulas;
mod relax;
mod run;
mod scan;
mod scan_edge;
mod search;
mod steps;
mod take;
mod take_inner;
mod waiting;

pub use begin::{begin_at, begin_cells, begin_clear};
pub use buffers::{Buffers, Grids, Terrain};
pub use first::is_target;
pub use formulas::{Formula, PlusHalfSum, PlusTimeOrQuarter};
pub use relax::Left;
pub use run::spread;
pub use search::{Rule, Search};
pub use steps::{Avoids, Nothing};
pub use take::{TakenCell, take_next};
