// The answer of a file.
ghost use Rattle.answer.specs.Answering.{Answered};

use crate::grids::answer_request;
use gridfile::{BadFile, FIELD_MAX, FILE_CELLS_MAX, HEAD_END, parse, write_refused};

// The bytes of the longest answer: the status, the takes, and a grid of 1,024 cells.
pub const LONGEST: usize = 4 + 11 + 3 + 4 * FILE_CELLS_MAX;

// The bytes of the longest file that keeps the form: its head, and three grid fields of 3 + 4,096.
// (That is refused by 3, as its byte grid has more than n cells, or before that by 1, where a side is
// beyond the bounds; each longer one is refusal 8.)
pub const LONGEST_FILE: usize = HEAD_END + 3 * (3 + FIELD_MAX);

// Writes the answer of a file to the front of the output, and gives its length. Where the output is
// shorter than the longest answer nothing is written, and the length is 0.
pub fn answer_file(input: &[u8], output: &mut [u8]) -> usize
    ensures { Answered input.now output.old output.new result }
{
    if output.len() < LONGEST {
        return 0;
    }
    match parse(input) {
        Ok(request) => answer_request(request, input, output),
        Err(BadFile) => write_refused(BadFile::NUMBER, None, output),
    }
}
