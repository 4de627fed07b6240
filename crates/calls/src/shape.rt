// The tests on sizes and lengths: refusals 1, 2 and 3.
ghost use Rattle.std.specs.Prelude.{◌≡◌, [], T, OnOk};
ghost use Rattle.std.specs.List.{All, list_any};
ghost use Rattle.rules.specs.Sizes.{count, in_bounds, out_of_bounds, differs, other_than, wrong_length, first_that_holds, shape};
ghost use Rattle.calls.specs.Answer.{judged_as};
ghost use Rattle.calls.specs.Given.{lent};

use crate::answer::Refusal;
use cells::{cell_count, in_bounds, same_size};
use rules::Size;

// The lengths of what a call is lent: those of the answer and of the work buffers in their order, and that of the queue.
#[derive(Clone, Copy)]
pub struct Lengths<'a> {
    pub slices: &'a [usize],
    pub queue: usize,
}

// Whether a size breaks the bounds.
fn any_out_of_bounds(sizes: &[Size]) -> bool
    ensures { result ≡ list_any out_of_bounds sizes.now }
{
    sizes.iter().any(|size| !in_bounds(*size))
}

// Whether two sizes differ in rows or in columns.
fn differs(a: Size, b: Size) -> bool
    ensures { result ≡ differs a b }
{
    !same_size(a, b)
}

// Whether a size differs from the first.
fn any_differs(first: Size, sizes: &[Size]) -> bool
    ensures { result ≡ list_any (differs first) sizes.now }
{
    sizes.iter().any(|size| differs(first, *size))
}

// Whether a length is not n.
fn any_other(n: usize, lengths: &[usize]) -> bool
    ensures { result ≡ list_any (other_than n) lengths.now }
{
    lengths.iter().any(|length| *length != n)
}

// 3: whether a slice has not its length: n, or n + 1 for the queue.
#[tactic(auto, using(crate::proofs::Measured::lengths_tested))]
fn wrong_length(size: Size, input_lengths: &[usize], lengths: Lengths<'_>) -> bool
    requires { T (in_bounds size) }
    ensures { result ≡ wrong_length size input_lengths.now (lent lengths.entry.slices.now lengths.entry.queue) }
{
    let n = cell_count(size);
    any_other(n, input_lengths) || any_other(n, lengths.slices) || lengths.queue != n + 1
}

// 1 to 3, in this order: the size of the first input grid, those of the others, and the lengths of all slices.
#[tactic(auto, using(crate::proofs::Measured::lengths_tested), unfolding(rules::specs::Sizes::shape, rules::specs::Sizes::first_that_holds))]
pub fn judge_shape(
    size: Size,
    others: &[Size],
    input_lengths: &[usize],
    lengths: Lengths<'_>,
) -> Result<(), Refusal>
    ensures bounded { OnOk result (T (in_bounds size)) }
    ensures whole { OnOk result (All (λ n. n ≡ count size) input_lengths.now) }
    ensures judged { judged_as result ≡ first_that_holds (shape size others.now input_lengths.now (lent lengths.entry.slices.now lengths.entry.queue) []) }
{
    if !in_bounds(size) || any_out_of_bounds(others) {
        return Err(Refusal::SizeOutOfBounds);
    }
    if any_differs(size, others) {
        return Err(Refusal::SizesDiffer);
    }
    if wrong_length(size, input_lengths, lengths) {
        return Err(Refusal::WrongLength);
    }
    Ok(())
}
