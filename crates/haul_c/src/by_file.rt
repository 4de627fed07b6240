// The whole program, on slices: a grid file in, its answer out.
ghost use Rattle.answer.specs.Answering.{Answered};

use answer::answer_file;

// Exports `answer_file`: the answer's bytes stand at the front of the output, and the result is their
// number. Where the output is shorter than 4,114 bytes nothing is written, and the number is 0.
#[unsafe(no_mangle)]
pub extern "C" fn haul_answer(input: &[u8], output: &mut [u8]) -> u32
    ensures { Answered input.now output.old output.new result }
{
    answer_file(input, output) as u32
}
