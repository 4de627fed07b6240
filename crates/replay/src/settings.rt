// The two lines at a case's start.
ghost use Rattle.std.specs.Prelude.{◌<◌, IfOk};
ghost use Rattle.replay.specs.Reading.{GoesOn};

use crate::kinds;
use crate::words::{Malformed, Reader};
use gridfile::Search;
use rules::{BarrierDiagonals, Spacing};

// The greatest number of a search.
const LAST_SEARCH: u64 = 8;

// The search with its flags and numbers. The number 0 is read, and is that of no search.
#[derive(Clone, Copy)]
pub struct Settings {
    pub search: Option<Search>,
    pub diagonals: BarrierDiagonals,
    pub adjacent: bool,
    pub spacing: Spacing,
}

// A flag, 0 or 1, after its name.
fn flag(reader: &mut Reader<'_>, name: &[u8]) -> Result<bool, Malformed>
    ensures { GoesOn reader.old reader.new }
{
    reader.literal(name)?;
    Ok(reader.decimal(1)? == 1)
}

// A float after its name.
fn float(reader: &mut Reader<'_>, name: &[u8]) -> Result<f32, Malformed>
    ensures { GoesOn reader.old reader.new }
{
    reader.literal(name)?;
    Ok(binary32::of_bits(reader.hex()?))
}

// The two lines at the start of a case.
pub fn head(reader: &mut Reader<'_>) -> Result<Settings, Malformed>
    ensures goes_on { GoesOn reader.old reader.new }
    ensures further { IfOk result (λ _. reader.old.pos < reader.new.pos) }
{
    reader.literal(b"search ")?;
    let search = kinds::numbered(reader.decimal(LAST_SEARCH)?);
    let excludes = flag(reader, b" diagonals ")?;
    let adjacent = flag(reader, b" adjacent ")?;
    let cell_size = float(reader, b"\ncell_size ")?;
    let limit = float(reader, b" limit ")?;
    reader.literal(b"\n")?;
    Ok(Settings {
        search,
        diagonals: if excludes {
            BarrierDiagonals::Exclude
        } else {
            BarrierDiagonals::Include
        },
        adjacent,
        spacing: Spacing { cell_size, limit },
    })
}
