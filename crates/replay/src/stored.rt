// The stored answer of a case, and what every buffer must hold after the call.
ghost use Rattle.std.specs.Prelude.{◌≡◌};
ghost use Rattle.replay.specs.Reading.{GoesOn};
ghost use Rattle.replay.specs.Stored.{clears};

use crate::buffers::Held;
use crate::grids;
use crate::words::{Malformed, Reader};
use calls::{Numbered, fill};

// An answer: the takes, or document 01's number of the refusal.
pub type Told = Result<u64, Numbered>;

// The number of the refusal for a cell over the budget, which is the last. It alone comes of a call
// that ran. The text has refusals by their numbers.
const OVER_BUDGET: u8 = 7;

// The bits that a refusal leaves in each cell of the answer: the last has the one NaN, and any other
// what was there before the call.
fn left_in_answer(number: u8) -> u32 {
    if number == OVER_BUDGET {
        binary32::NAN_BITS
    } else {
        f32::dirty().bits()
    }
}

// Reads how many cells the answer has, a space before it, which must be as many as `wanted`. Where
// an answer has cells, another number of them is malformed from its space on.
fn length(reader: &mut Reader<'_>, wanted: usize) -> Result<(), Malformed>
    ensures { GoesOn reader.old reader.new }
{
    let at = reader.pos;
    reader.literal(b" ")?;
    match reader.decimal(grids::CELLS as u64) {
        Ok(length) if length == wanted as u64 => Ok(()),
        Err(malformed) if wanted == 0 => Err(malformed),
        _ => Err(Malformed { at }),
    }
}

// An accepted call's line. It has as many cells as `cells`, which takes their bits.
fn accepted(reader: &mut Reader<'_>, cells: &mut [u32]) -> Result<Told, Malformed>
    ensures { GoesOn reader.old reader.new }
{
    reader.literal(b"accepted ")?;
    let takes = reader.decimal(u64::MAX)?;
    length(reader, cells.len())?;
    grids::read_cells(reader, cells)?;
    reader.literal(b"\n")?;
    Ok(Ok(takes))
}

// The index of a refusal, where there is one.
fn index(reader: &mut Reader<'_>) -> Result<Option<u32>, Malformed>
    ensures { GoesOn reader.old reader.new }
{
    if reader.peek() != Some(b' ') {
        return Ok(None);
    }
    reader.literal(b" index ")?;
    Ok(Some(reader.decimal(u32::MAX as u64)? as u32))
}

// A refused call's line. `cells` takes the bits that such a call leaves in the answer.
fn refused(reader: &mut Reader<'_>, cells: &mut [u32]) -> Result<Told, Malformed>
    ensures { GoesOn reader.old reader.new }
{
    reader.literal(b"refused ")?;
    let number = reader.decimal(OVER_BUDGET as u64)? as u8;
    fill(cells, left_in_answer(number));
    let index = index(reader)?;
    reader.literal(b"\n")?;
    Ok(Err(Numbered { number, index }))
}

// The line of the stored answer. `cells`, the length of the answer, takes the bits that it must
// hold after the call.
pub fn stored_answer(reader: &mut Reader<'_>, cells: &mut [u32]) -> Result<Told, Malformed>
    ensures { GoesOn reader.old reader.new }
{
    if reader.peek() == Some(b'a') {
        accepted(reader, cells)
    } else {
        refused(reader, cells)
    }
}

// Whether the call cleared its work buffers: it did where it ran, so also before the last refusal.
pub fn cleared(told: Told) -> bool
    ensures { result ≡ clears told }
{
    match told {
        Ok(_) => true,
        Err(refusal) => refusal.number == OVER_BUDGET,
    }
}
