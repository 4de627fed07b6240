// The list of the cells that were reached, each once.
ghost use Rattle.reach.specs.Listing.{Joining, Joined};

// The mark of a cell that is listed, or that was added beside one. Any other cell's mark is 0. C lends the marks as numbers.
pub const MET: u32 = 1;

// Lists a cell behind those that are, unless it is among them. The list is the first entries of a lent slice, and their count
// goes along: without a heap there is no Vec.
pub fn list_cell(cell: u32, met: &mut [u32], listed: &mut [u32], count: usize) -> usize
    requires { Joining cell met.old listed.old count }
    ensures { Joined cell met.old listed.old count met.new listed.new result }
{
    let at = cell as usize;
    if met[at] == 0 {
        met[at] = MET;
        listed[count] = cell;
        return count + 1;
    }
    count
}
