// What a call answers. specs/Answer.antt gives document 01's number for each refusal.

// What is counted in an accepted call.
#[derive(Clone, Copy)]
pub struct Counts {
    pub takes: u64,
}

// Why a call is refused, with the index of the time or of the mask cell where there is one.
#[derive(Clone, Copy, PartialEq, Eq)]
pub enum Refusal {
    SizeOutOfBounds,
    SizesDiffer,
    WrongLength,
    BadCellSize,
    BadLimit,
    NegativeTime(u32),
    OverBudget(u32),
}

// What a search answers, beside what it leaves in the lent slices.
pub type Answer = Result<Counts, Refusal>;
