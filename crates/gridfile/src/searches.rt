// The searches that a file can ask for, and what each of them uses of it.
ghost use Rattle.std.specs.Prelude.{◌≡◌};
ghost use Rattle.gridfile.specs.Request.{search_number, search_asked, uses_cell_size, uses_limit, uses_diagonals, uses_adjacent, grids_of};
ghost use Rattle.gridfile.specs.Lookups.{has_of};

use crate::request::BadFile;

// Each search by the name of its call, in the order of their numbers, 1 to 8.
#[derive(Clone, Copy)]
pub enum Search {
    DistancesUpTo,
    DistanceWithObstacles,
    TravelDistancesUpTo,
    ValueAtClosestTarget,
    ValueAtClosestTravelTarget,
    ValueAtClosestLessThanTravelTarget,
    SumWithinTravelDistance,
    SumTargetsWithinTravelDistance,
}

// The search with a number.
impl TryFrom<u8> for Search {
    type Error = BadFile;

    ghost try_from_gives = { λ number search. search ≡ search_asked number };

    fn try_from(number: u8) -> Result<Self, BadFile> {
        match number {
            1 => Ok(Search::DistancesUpTo),
            2 => Ok(Search::DistanceWithObstacles),
            3 => Ok(Search::TravelDistancesUpTo),
            4 => Ok(Search::ValueAtClosestTarget),
            5 => Ok(Search::ValueAtClosestTravelTarget),
            6 => Ok(Search::ValueAtClosestLessThanTravelTarget),
            7 => Ok(Search::SumWithinTravelDistance),
            8 => Ok(Search::SumTargetsWithinTravelDistance),
            _ => Err(BadFile),
        }
    }
}

// Which of the grids a search has.
#[derive(Clone, Copy)]
pub struct Has {
    pub targets: bool,
    pub obstacles: bool,
    pub times: bool,
    pub values: bool,
}

// What the table's rows begin with.
const NONE: Has = Has {
    targets: false,
    obstacles: false,
    times: false,
    values: false,
};

#[tactic(auto, unfolding(crate::specs::Request::grids_of, rules::specs::Sizes::any))]
impl Search {
    // The table of the grids that each search has.
    pub fn grids(self) -> Has
        ensures { result ≡ has_of (grids_of (search_number self)) }
    {
        match self {
            Search::DistancesUpTo => Has {
                targets: true,
                ..NONE
            },
            Search::DistanceWithObstacles => Has {
                targets: true,
                obstacles: true,
                ..NONE
            },
            Search::TravelDistancesUpTo => Has {
                targets: true,
                times: true,
                ..NONE
            },
            Search::ValueAtClosestTarget => Has {
                targets: true,
                values: true,
                ..NONE
            },
            Search::ValueAtClosestTravelTarget
            | Search::ValueAtClosestLessThanTravelTarget
            | Search::SumWithinTravelDistance => Has {
                targets: true,
                times: true,
                values: true,
                ..NONE
            },
            Search::SumTargetsWithinTravelDistance => Has {
                times: true,
                values: true,
                ..NONE
            },
        }
    }

    // Whether a search scales by the cell size.
    pub(crate) fn uses_cell_size(self) -> bool
        ensures { result ≡ uses_cell_size (search_number self) }
    {
        matches!(self, Search::DistancesUpTo | Search::DistanceWithObstacles)
    }

    // Whether a search has a limit: a cap, a time limit or a budget.
    pub(crate) fn uses_limit(self) -> bool
        ensures { result ≡ uses_limit (search_number self) }
    {
        matches!(
            self,
            Search::DistancesUpTo
                | Search::TravelDistancesUpTo
                | Search::ValueAtClosestLessThanTravelTarget
                | Search::SumWithinTravelDistance
                | Search::SumTargetsWithinTravelDistance
        )
    }

    // Whether a search has the flag for diagonals.
    pub(crate) fn uses_diagonals(self) -> bool
        ensures { result ≡ uses_diagonals (search_number self) }
    {
        matches!(self, Search::DistanceWithObstacles)
    }

    // Whether a search has the flag for adjacent cells.
    pub(crate) fn uses_adjacent(self) -> bool
        ensures { result ≡ uses_adjacent (search_number self) }
    {
        matches!(self, Search::SumWithinTravelDistance)
    }
}
