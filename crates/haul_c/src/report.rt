// What a call answers, as numbers.
ghost use Rattle.calls.specs.Answer.{told};
ghost use Rattle.haul_c.specs.Export.{Reported};

use calls::{Answer, Numbered};

// Writes the takes or the index, where there is one, and gives the status.
pub fn report(answer: Answer, takes: &mut u64, index: &mut u32) -> u32
    ensures { Reported (told answer) takes.old takes.new index.old index.new result }
{
    match answer {
        Ok(counts) => {
            *takes = counts.takes;
            0
        }
        Err(refusal) => {
            let numbered = Numbered::from(refusal);
            if let Some(at) = numbered.index {
                *index = at;
            }
            u32::from(numbered.number)
        }
    }
}
