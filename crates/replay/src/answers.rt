// What the library answered, held against what is stored.
ghost use Rattle.std.specs.Prelude.{◌≡◌, ◌≤◌, IsTrue};
ghost use Rattle.gridfile.specs.Request.{search_number};
ghost use Rattle.replay.specs.Buffers.{AllAre, AllHave, SameBits, left_of, dirty_byte, dirty_word, dirty_float};
ghost use Rattle.replay.specs.Stored.{Tells, clears};

use crate::buffers::{left, same_bits};
use crate::case::Case;
use crate::kinds::{is_lent_added, is_lent_distances, is_lent_lists};
use crate::lent::Lent;
use crate::stored;
use crate::stored::Told;
use calls::{Answer, Numbered};
use gridfile::Search;

// What the library answered, by its numbers.
fn told_of(answer: Answer) -> Told
    ensures { Tells answer result }
{
    match answer {
        Ok(counts) => Ok(counts.takes),
        Err(refusal) => Err(Numbered::from(refusal)),
    }
}

// Whether the answer, its cells and each work buffer that the search is lent are as stored.
pub fn as_stored(answer: Answer, search: Search, case: &Case<'_>, lent: &Lent<'_>) -> bool
    ensures told { IsTrue result → Tells answer case.now.told }
    ensures cells { IsTrue result → SameBits lent.now.cells.now case.now.bits.now }
    ensures marks { IsTrue result → AllAre lent.now.marks.now (left_of dirty_byte (clears case.now.told)) }
    ensures queue { IsTrue result → AllAre lent.now.queue.now (left_of dirty_word (clears case.now.told)) }
    ensures distances { IsTrue result → 4 ≤ search_number search → AllHave lent.now.distances.now (left_of dirty_float (clears case.now.told)) }
    ensures listed { IsTrue result → search_number search ≡ 7 → AllAre lent.now.listed.now (left_of dirty_word (clears case.now.told)) }
    ensures adjacent { IsTrue result → search_number search ≡ 7 → AllAre lent.now.adjacent.now (left_of dirty_word (clears case.now.told)) }
    ensures added { IsTrue result → search_number search ≡ 8 → AllAre lent.now.added.now (left_of dirty_byte (clears case.now.told)) }
{
    let cleared = stored::cleared(case.told);
    told_of(answer) == case.told
        && same_bits(lent.cells, case.bits)
        && left(lent.marks, cleared)
        && left(lent.queue, cleared)
        && (!is_lent_distances(search) || left(lent.distances, cleared))
        && (!is_lent_lists(search) || (left(lent.listed, cleared) && left(lent.adjacent, cleared)))
        && (!is_lent_added(search) || left(lent.added, cleared))
}
