// What a file asks for.
ghost use Rattle.std.specs.Prelude.{◌≡◌};
ghost use Rattle.gridfile.specs.Request.{diagonals_of, as_request, parsed};

use crate::grids::{Grids, find_grids, grids_fit};
use crate::head::{HEAD_END, Head, has_head, head_fits, read_head};
use crate::searches::Search;
use binary32::of_bits;
use rules::{BarrierDiagonals, Size, Spacing};

// A search with all that it is given.
#[derive(Clone, Copy)]
pub struct Request {
    pub search: Search,
    pub diagonals: BarrierDiagonals,
    pub adjacent: bool,
    pub size: Size,
    pub spacing: Spacing,
    pub grids: Grids,
}

// A byte string that does not keep the form.
#[derive(Clone, Copy)]
pub struct BadFile;

impl BadFile {
    // The number of this refusal.
    pub const NUMBER: u8 = 8;
}

// The diagonals that a flag stands for: 0 is Include, any other number Exclude. (It has a name, and is
// no `From<u32>` of `rules`, so that a call says that its number is a flag.)
pub fn diagonals_of(flag: u32) -> BarrierDiagonals
    ensures { result ≡ diagonals_of flag }
{
    if flag == 0 {
        BarrierDiagonals::Include
    } else {
        BarrierDiagonals::Exclude
    }
}

// The request that the three first fields and the grids make.
fn request_of(search: Search, head: Head, grids: Grids) -> Request
    ensures { result ≡ as_request search head grids }
{
    Request {
        search,
        diagonals: diagonals_of(head.diagonals as u32),
        adjacent: head.adjacent == 1,
        size: Size {
            rows: head.rows as i32,
            cols: head.cols as i32,
        },
        spacing: Spacing {
            cell_size: of_bits(head.cell_size),
            limit: of_bits(head.limit),
        },
        grids,
    }
}

// The request of a file that keeps the form, and refusal 8 for every other byte string.
pub fn parse(file: &[u8]) -> Result<Request, BadFile>
    ensures { result ≡ parsed file.now }
{
    if !has_head(file) {
        return Err(BadFile);
    }
    let head = read_head(file);
    let search = Search::try_from(head.search)?;
    let grids = find_grids(file, HEAD_END, search).ok_or(BadFile)?;
    if !head_fits(search, head) || !grids_fit(grids) {
        return Err(BadFile);
    }
    Ok(request_of(search, head, grids))
}
