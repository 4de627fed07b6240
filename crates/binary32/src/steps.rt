// The lengths of the two steps from a cell to a neighbour, in cells.
ghost use Rattle.std.specs.Prelude.{◌≡◌};
ghost use Rattle.binary32.specs.Steps.{straight, diagonal};

// To a neighbour that shares an edge.
pub const STRAIGHT: f32 = 1.0;

// To a neighbour that shares a corner: the root of 2, as near as an `f32` comes to it.
pub const DIAGONAL: f32 = 1.4142135;

// A constant has no contract. These two functions tie the constants to the definitions. Code that
// adds a step names the constant, whose value a proof sees with no call on the way.
pub fn straight_step() -> f32
    ensures { result ≡ straight }
{
    STRAIGHT
}

pub fn diagonal_step() -> f32
    ensures { result ≡ diagonal }
{
    DIAGONAL
}
