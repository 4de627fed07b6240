// What a cell begins with, in a search from targets.
ghost use Rattle.std.specs.Prelude.{◌≡◌, T, ℕ, suc};
ghost use Rattle.rules.specs.Sizes.{in_bounds, count};
ghost use Rattle.rules.specs.Numbers.{target_byte, whole};
ghost use Rattle.spread.specs.First.{NeverEntered, FromStart, FromTarget, FromPlainTarget, FromTravelTarget, FromValuedTarget, Reads, FirstFrom};
ghost use Rattle.spread.specs.First.{from_plain_targets, from_targets, from_travel_targets, from_closest_targets, from_valued_targets};

use crate::buffers::Grids;
use binary32::{is_nodata, nan, one_nan};
use cells::cell_count;
use rules::Size;

// The target byte that stands for nodata.
pub const NODATA_BYTE: u8 = 255;

// What a cell begins with: its label, and whether it starts. The label is stored either way, so that no Option says it.
#[derive(Clone, Copy)]
pub struct First {
    pub distance: f32,
    pub value: f32,
    pub starts: bool,
}

// Whether a target byte marks a target: it is nonzero, and not nodata.
pub fn is_target(byte: u8) -> bool
    ensures { result ≡ target_byte byte }
{
    byte != 0 && byte != NODATA_BYTE
}

// What is never entered holds NaN: no distance is below that.
fn never_entered() -> First
    ensures { NeverEntered result }
{
    First {
        distance: nan(),
        value: nan(),
        starts: false,
    }
}

// A cell that starts is at 0 with its value, any other waits for a distance below the cap.
fn from_start(starts: bool, value: f32, cap: f32) -> First
    ensures { FromStart starts value cap result }
{
    if starts {
        return First {
            distance: 0.0,
            value,
            starts,
        };
    }
    First {
        distance: cap,
        value: 0.0,
        starts,
    }
}

// A target starts.
fn from_target(byte: u8, value: f32, cap: f32) -> First
    ensures { FromTarget byte value cap result }
{
    from_start(is_target(byte), value, cap)
}

// The same, but a nodata target is never entered, and no value goes along.
fn from_plain_target(byte: u8, cap: f32) -> First
    ensures { FromPlainTarget byte cap result }
{
    if byte == NODATA_BYTE {
        return never_entered();
    }
    from_target(byte, 0.0, cap)
}

// The same, and neither is a nodata time.
fn from_travel_target(byte: u8, time: f32, cap: f32) -> First
    ensures { FromTravelTarget byte time cap result }
{
    if is_nodata(time) {
        return never_entered();
    }
    from_plain_target(byte, cap)
}

// A nodata value is never entered; of the others a nonzero target starts, and 255 is nonzero.
fn from_valued_target(byte: u8, value: f32, cap: f32) -> First
    ensures { FromValuedTarget byte value cap result }
{
    if is_nodata(value) {
        return never_entered();
    }
    from_start(byte != 0, value, cap)
}

// A distance above any that a grid of this size has, as a float: one more than its number of cells.
pub fn above_all(size: Size) -> f32
    requires { T (in_bounds size) }
    ensures { result ≡ whole (suc (count size)) }
{
    let cells = cell_count(size) + 1;
    cells as f32
}

// From which targets a search begins, which the loop has as a type: `FirstFrom` in specs/First.antt says what a cell
// begins with from those of a number.
pub trait Targets {
    ghost number: { ℕ };

    // What a cell begins with.
    fn first_label(cap: f32, grids: Grids<'_>, cell: u32) -> First
        requires { Reads number grids.targets.now grids.times.now grids.values.now cell }
        ensures { FirstFrom number cap grids.entry.targets.now grids.entry.times.now grids.entry.values.now cell result };
}

// The targets of search 1.
pub struct PlainTargets;

impl Targets for PlainTargets {
    ghost number = { from_plain_targets };

    fn first_label(cap: f32, grids: Grids<'_>, cell: u32) -> First {
        from_plain_target(grids.targets[cell as usize], cap)
    }
}

// Those of search 2.
pub struct AnyTargets;

impl Targets for AnyTargets {
    ghost number = { from_targets };

    fn first_label(cap: f32, grids: Grids<'_>, cell: u32) -> First {
        from_target(grids.targets[cell as usize], 0.0, cap)
    }
}

// Those of search 3.
pub struct TravelTargets;

impl Targets for TravelTargets {
    ghost number = { from_travel_targets };

    fn first_label(cap: f32, grids: Grids<'_>, cell: u32) -> First {
        let at = cell as usize;
        from_travel_target(grids.targets[at], grids.times[at], cap)
    }
}

// Those of search 4.
pub struct ClosestTargets;

impl Targets for ClosestTargets {
    ghost number = { from_closest_targets };

    fn first_label(cap: f32, grids: Grids<'_>, cell: u32) -> First {
        let at = cell as usize;
        from_target(grids.targets[at], one_nan(grids.values[at]), cap)
    }
}

// Those of searches 5 and 6.
pub struct ValuedTargets;

impl Targets for ValuedTargets {
    ghost number = { from_valued_targets };

    fn first_label(cap: f32, grids: Grids<'_>, cell: u32) -> First {
        let at = cell as usize;
        from_valued_target(grids.targets[at], grids.values[at], cap)
    }
}
