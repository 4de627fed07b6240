// What a case asks of its search.
ghost use Rattle.std.specs.Prelude.{◌≡◌, ◌≤◌, ◌↔◌, IsTrue};
ghost use Rattle.std.specs.Result.{result_ok};
ghost use Rattle.gridfile.specs.Lookups.{has_of};
ghost use Rattle.gridfile.specs.Request.{search_number, search_asked};
ghost use Rattle.replay.specs.Search.{tags_of};

use gridfile::{Has, Search};

// The search with a number, if there is one.
pub fn numbered(number: u64) -> Option<Search>
    ensures { result ≡ result_ok (search_asked number) }
{
    let number = u8::try_from(number).ok()?;
    Search::try_from(number).ok()
}

// The grids of a case. One of no search has targets alone.
#[tactic(auto, unfolding(rules::specs::Sizes::any))]
pub fn grids_of(search: Option<Search>) -> Has
    ensures { result ≡ has_of (tags_of search) }
{
    match search {
        Some(search) => search.grids(),
        None => Has {
            targets: true,
            obstacles: false,
            times: false,
            values: false,
        },
    }
}

// Whether a search is lent distances beside its answer.
pub fn is_lent_distances(search: Search) -> bool
    ensures { IsTrue result ↔ (4 ≤ search_number search) }
{
    !matches!(
        search,
        Search::DistancesUpTo | Search::DistanceWithObstacles | Search::TravelDistancesUpTo
    )
}

// Whether a search is lent two lists of cells.
pub fn is_lent_lists(search: Search) -> bool
    ensures { IsTrue result ↔ (search_number search ≡ 7) }
{
    matches!(search, Search::SumWithinTravelDistance)
}

// Whether a search is lent marks of the cells that it has added.
pub fn is_lent_added(search: Search) -> bool
    ensures { IsTrue result ↔ (search_number search ≡ 8) }
{
    matches!(search, Search::SumTargetsWithinTravelDistance)
}
