// Document 01's number of a refusal.
ghost use Rattle.std.specs.Prelude.{◌≡◌};
ghost use Rattle.calls.specs.Answer.{refusal_number};
ghost use Rattle.calls.specs.Numbered.{numbered_as};

use crate::answer::Refusal;

// A refusal's number, with its index where it has one.
#[derive(Clone, Copy, Debug, PartialEq, Eq)]
pub struct Numbered {
    pub number: u8,
    pub index: Option<u32>,
}

impl From<Refusal> for Numbered {
    ghost from_gives = { λ refusal numbered. numbered_as numbered ≡ refusal_number refusal };

    // The number of a refusal, with its index for 6 and 7.
    fn from(refusal: Refusal) -> Numbered {
        let (number, index) = match refusal {
            Refusal::SizeOutOfBounds => (1, None),
            Refusal::SizesDiffer => (2, None),
            Refusal::WrongLength => (3, None),
            Refusal::BadCellSize => (4, None),
            Refusal::BadLimit => (5, None),
            Refusal::NegativeTime(index) => (6, Some(index)),
            Refusal::OverBudget(index) => (7, Some(index)),
        };
        Numbered { number, index }
    }
}
