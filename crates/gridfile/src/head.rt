// The fields 01, 02 and 03, with which every file begins.
ghost use Rattle.std.specs.Prelude.{◌≡◌, ◌≤◌, length};
ghost use Rattle.gridfile.specs.Request.{search_number, head_of, zero_unless, flags_fit, numbers_fit, few_cells, head_fits};
ghost use Rattle.gridfile.specs.Lookups.{has_head};

use crate::fields::stands_at;
use crate::numbers::bytes_at;
use crate::searches::Search;
use crate::tags;

// What the three fields hold, as the file has it: numbers and flags that are not judged, and the cell
// size and the limit by their bits.
#[derive(Clone, Copy)]
pub struct Head {
    pub search: u8,
    pub diagonals: u8,
    pub adjacent: u8,
    pub rows: u16,
    pub cols: u16,
    pub cell_size: u32,
    pub limit: u32,
}

// The place after them.
pub const HEAD_END: usize = 24;

// The most cells of a grid that a file may ask for.
pub const FILE_CELLS_MAX: usize = 1024;

// Whether the file begins with 01, 02 and 03, each of its length.
pub fn has_head(file: &[u8]) -> bool
    ensures { result ≡ has_head file.now }
{
    stands_at(file, 0, tags::FLAGS, 3)
        && stands_at(file, 6, tags::SIZE, 4)
        && stands_at(file, 13, tags::NUMBERS, 8)
}

// What the three fields hold in a file that begins with them.
pub fn read_head(file: &[u8]) -> Head
    requires { 24 ≤ length file.now }
    ensures { result ≡ head_of file.now 3 9 16 }
{
    Head {
        search: file[3],
        diagonals: file[4],
        adjacent: file[5],
        rows: u16::from_le_bytes(bytes_at(file, 9)),
        cols: u16::from_le_bytes(bytes_at(file, 11)),
        cell_size: u32::from_le_bytes(bytes_at(file, 16)),
        limit: u32::from_le_bytes(bytes_at(file, 20)),
    }
}

// Whether a number is zero, as it must be where the search does not use it.
fn zero_unless(used: bool, number: u32) -> bool
    ensures { result ≡ zero_unless used number }
{
    used || number == 0
}

// Whether the flags are in their ranges, and the unused flags zero.
fn flags_fit(search: Search, diagonals: u8, adjacent: u8) -> bool
    ensures { result ≡ flags_fit (search_number search) diagonals adjacent }
{
    diagonals <= 1
        && adjacent <= 1
        && zero_unless(search.uses_diagonals(), diagonals as u32)
        && zero_unless(search.uses_adjacent(), adjacent as u32)
}

// Whether the unused numbers are zero bytes.
fn numbers_fit(search: Search, cell_size: u32, limit: u32) -> bool
    ensures { result ≡ numbers_fit (search_number search) cell_size limit }
{
    zero_unless(search.uses_cell_size(), cell_size) && zero_unless(search.uses_limit(), limit)
}

// Whether a grid of this size is one that a file may ask for.
fn few_cells(rows: u16, cols: u16) -> bool
    ensures { result ≡ few_cells rows cols }
{
    rows as usize * cols as usize <= FILE_CELLS_MAX
}

// Whether what the three fields hold keeps the rules of the search that they ask for.
#[tactic(auto, unfolding(crate::specs::Request::head_fits))]
pub fn head_fits(search: Search, head: Head) -> bool
    requires { head.search ≡ search_number search }
    ensures { result ≡ head_fits head }
{
    flags_fit(search, head.diagonals, head.adjacent)
        && numbers_fit(search, head.cell_size, head.limit)
        && few_cells(head.rows, head.cols)
}
