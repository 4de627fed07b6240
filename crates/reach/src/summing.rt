// The sum of the listed cells' values, and whether a distance of theirs is above the budget.
ghost use Rattle.std.specs.Prelude.{◌≡◌, ◌<◌, length};
ghost use Rattle.binary32.specs.Numbers.{plus_zero};
ghost use Rattle.rules.specs.Sizes.{any};
ghost use Rattle.rules.specs.Sums.{add_value, add_values, above_budget};
ghost use Rattle.reach.specs.Listing.{Cells};

use binary32::is_nodata;
use rules::Size;

// What a search from one cell is summed up by: each cell's value and the distance at which it was reached, and the budget.
#[derive(Clone, Copy)]
pub struct Reach<'a> {
    pub size: Size,
    pub values: &'a [f32],
    pub distances: &'a [f32],
    pub budget: f32,
}

impl Reach<'_> {
    // Adds a cell's value, if it has data.
    pub(crate) fn add_value(self, cell: u32, sum: f32) -> f32
        requires { cell < length self.values.now }
        ensures { result ≡ add_value self.entry.values.now sum cell }
    {
        let at = cell as usize;
        let value = self.values[at];
        if is_nodata(value) {
            return sum;
        }
        sum + value
    }

    // Adds the listed cells' values from +0.0, in list order.
    pub fn add_listed(self, listed: &[u32]) -> f32
        requires { Cells (length self.values.now) listed.now }
        ensures { result ≡ add_values self.entry.values.now plus_zero listed.now }
    {
        let mut sum: f32 = 0.0;
        for cell in listed {
            sum = self.add_value(*cell, sum);
        }
        sum
    }

    // Whether a cell's distance is above the budget.
    pub(crate) fn is_above(self, cell: u32) -> bool
        requires { cell < length self.distances.now }
        ensures { result ≡ above_budget self.entry.distances.now self.entry.budget cell }
    {
        let at = cell as usize;
        self.distances[at] > self.budget
    }

    // Whether a listed cell's distance is above the budget.
    pub fn is_over_budget(self, listed: &[u32]) -> bool
        requires { Cells (length self.distances.now) listed.now }
        ensures { result ≡ any (above_budget self.entry.distances.now self.entry.budget) listed.now }
    {
        for cell in listed {
            if self.is_above(*cell) {
                return true;
            }
        }
        false
    }
}
