// Grids as the library takes them, out of the file.
ghost use Rattle.std.specs.Prelude.{◌≡◌, ◌++◌, ◌+◌, ◌/◌, ◌≤◌, length, drop};
ghost use Rattle.gridfile.specs.Contents.{bytes_in, floats_in};

use crate::fields::Part;
use crate::numbers::bytes_at;
use binary32::of_bits;

// Copies a part of the file to the front of a slice.
pub fn copy_bytes(file: &[u8], part: Part, cells: &mut [u8])
    requires inside { part.start + part.len ≤ length file.now }
    requires room { part.len ≤ length cells.old }
    ensures { cells.new ≡ bytes_in file.now part ++ drop part.len cells.old }
{
    cells[..part.len].copy_from_slice(&file[part.start..part.start + part.len]);
}

// Reads the floats of a part of the file to the front of a slice.
pub fn read_floats(file: &[u8], part: Part, cells: &mut [f32])
    requires inside { part.start + part.len ≤ length file.now }
    requires room { part.len / 4 ≤ length cells.old }
    ensures { cells.new ≡ floats_in file.now part ++ drop (part.len / 4) cells.old }
{
    let count = part.len / 4;
    for (i, cell) in cells[..count].iter_mut().enumerate() {
        *cell = of_bits(u32::from_le_bytes(bytes_at(file, part.start + 4 * i)));
    }
}
