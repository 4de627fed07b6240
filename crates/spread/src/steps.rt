// The steps that a rule permits.
ghost use Rattle.std.specs.Prelude.{◌≡◌, false, ℕ, ◌<◌, eqb, length};
ghost use Rattle.rules.specs.Distances as distance;
ghost use Rattle.rules.specs.declared.Size.{Size};
ghost use Rattle.rules.specs.Sizes.{grid};
ghost use Rattle.rules.specs.declared.BarrierDiagonals.TheVariants.{Include, Exclude};
ghost use Rattle.spread.specs.Steps.{avoided_with, may_enter, blocked_by, SaysFree, Pair, Crossed, Among, MayAsk};

use rules::{BarrierDiagonals, Size};

// Whether a cell is no obstacle: its byte is 0.
fn is_free(obstacles: &[u8], cell: u32) -> bool
    requires { cell < length obstacles.now }
    ensures { SaysFree obstacles.now cell result }
{
    let at = cell as usize;
    obstacles[at] == 0
}

// The cell in the row of one cell and in the column of another.
fn crossing(size: Size, row_of: u32, col_of: u32) -> u32
    requires { Pair size row_of col_of }
    ensures { Crossed size row_of col_of result }
{
    let cols = size.cols as u32;
    row_of / cols * cols + col_of % cols
}

// Whether both cells beside a diagonal step are obstacles.
fn is_between_obstacles(size: Size, obstacles: &[u8], from: u32, to: u32) -> bool
    requires { Among size obstacles.now from to }
    ensures { result ≡ distance.blocked BarrierDiagonals.Exclude (grid size obstacles.now) from to }
{
    let one = crossing(size, from, to);
    let other = crossing(size, to, from);
    if is_free(obstacles, one) {
        return false;
    }
    !is_free(obstacles, other)
}

// What a search avoids, which the loop has as a type: `may_enter` and `blocked_by` in specs/Steps.antt say what that of
// a number permits.
pub trait Avoids {
    ghost number: { ℕ };

    // Whether a step may enter a cell.
    fn may_enter(obstacles: &[u8], to: u32) -> bool
        requires { eqb number 0 ≡ false → to < length obstacles.now }
        ensures { (size : Size) → result ≡ may_enter number (grid size obstacles.now) to };

    // Whether a step is refused for the cells beside it.
    fn is_blocked(diagonal: bool, size: Size, obstacles: &[u8], from: u32, to: u32) -> bool
        requires { MayAsk number size obstacles.now from to }
        ensures { result ≡ blocked_by number diagonal (grid size obstacles.now) from to };
}

// Nothing is avoided.
pub struct Nothing;

impl Avoids for Nothing {
    ghost number = { 0 };

    fn may_enter(_obstacles: &[u8], _to: u32) -> bool {
        true
    }

    fn is_blocked(_diagonal: bool, _size: Size, _obstacles: &[u8], _from: u32, _to: u32) -> bool {
        false
    }
}

// Obstacles are.
pub struct Obstacles;

impl Avoids for Obstacles {
    ghost number = { avoided_with Include };

    fn may_enter(obstacles: &[u8], to: u32) -> bool {
        is_free(obstacles, to)
    }

    fn is_blocked(_diagonal: bool, _size: Size, _obstacles: &[u8], _from: u32, _to: u32) -> bool {
        false
    }
}

// Obstacles are, and diagonal steps between two of them.
pub struct BetweenObstacles;

impl Avoids for BetweenObstacles {
    ghost number = { avoided_with Exclude };

    fn may_enter(obstacles: &[u8], to: u32) -> bool {
        is_free(obstacles, to)
    }

    fn is_blocked(diagonal: bool, size: Size, obstacles: &[u8], from: u32, to: u32) -> bool {
        if !diagonal {
            return false;
        }
        is_between_obstacles(size, obstacles, from, to)
    }
}
