// The bytes of an answer.
ghost use Rattle.std.specs.Prelude.{◌≡◌, ◌++◌, ◌+◌, ◌*◌, ◌≤◌, ◌<◌, length};
ghost use Rattle.rules.specs.Sizes.{refused, accepted};
ghost use Rattle.gridfile.specs.Answers.{Stored, Written, field_head, float_bytes, refusal, refusal_len, answer_file};

use crate::numbers::put;
use crate::tags;
use binary32::bits_of;

// Stores a field's tag and length at a place, and gives the place of its content.
fn put_head(output: &mut [u8], at: usize, tag: u8, len: u16) -> usize
    requires { at + 3 ≤ length output.old }
    ensures { Stored (field_head tag len) at output.old output.new result }
{
    let [low, high] = len.to_le_bytes();
    put(output, at, &[tag, low, high])
}

// Stores a field at a place, and gives the place after it.
fn put_field(output: &mut [u8], at: usize, tag: u8, content: &[u8]) -> usize
    requires short { length content.now < 65536 }
    requires room { at + 3 + length content.now ≤ length output.old }
    ensures { Stored (field_head tag (length content.now) ++ content.now) at output.old output.new result }
{
    let next = put_head(output, at, tag, content.len() as u16);
    put(output, next, content)
}

// Stores the bits of floats at a place, and gives the place after them.
fn put_floats(output: &mut [u8], at: usize, grid: &[f32]) -> usize
    requires { at + 4 * length grid.now ≤ length output.old }
    ensures { Stored (float_bytes grid.now) at output.old output.new result }
{
    let mut next = at;
    for x in grid {
        next = put(output, next, &bits_of(*x).to_le_bytes());
    }
    next
}

// Writes the answer of a refusal, with its index where it has one, and gives its length.
pub fn write_refused(status: u8, index: Option<u32>, output: &mut [u8]) -> usize
    requires { refusal_len index ≤ length output.old }
    ensures { Written (answer_file (refused (refusal status index))) output.old output.new result }
{
    let next = put_field(output, 0, tags::STATUS, &[status]);
    match index {
        Some(index) => put_field(output, next, tags::INDEX, &index.to_le_bytes()),
        None => next,
    }
}

// Writes the answer of an accepted call, and gives its length.
pub fn write_accepted(takes: u64, grid: &[f32], output: &mut [u8]) -> usize
    requires few { 4 * length grid.now < 65536 }
    requires room { 18 + 4 * length grid.now ≤ length output.old }
    ensures { Written (answer_file (accepted takes grid.now)) output.old output.new result }
{
    let next = put_field(output, 0, tags::STATUS, &[0]);
    let next = put_field(output, next, tags::TAKES, &takes.to_le_bytes());
    let next = put_head(output, next, tags::GRID, 4 * grid.len() as u16);
    put_floats(output, next, grid)
}
