// What search 7 does with the cells that a search from a mask cell reached.
//
// The cells are listed once each, in order of first entry (`list_cell`). Their values with data are
// added in that order (`Reach::add_listed`), a distance above the budget is noticed (`Reach::is_over_budget`), and
// the cells beside them that are above the budget are added once each (`add_adjacent`). The contracts
// cite the rules of search 7. Then the cells are put back, for the next search (`clear_distances`,
// `clear_met`).
#![tactic(auto)]

mod adjacent;
mod clearing;
mod listing;
mod summing;

pub use adjacent::{ADJACENT, add_adjacent};
pub use clearing::{clear_distances, clear_met};
pub use listing::{MET, list_cell};
pub use summing::Reach;
