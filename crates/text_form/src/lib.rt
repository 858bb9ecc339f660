// The text form of tapes, read from standard input: its first boxes, and the words of its steps in a lent row.
// A bad line is said on standard error, with its number and what is wrong with it.
#![tactic(auto)]

mod encoded;
mod fields;
mod steps;
mod text;
mod wrong;

use arrayvec::ArrayVec;
use streams::Failure;
use text::Text;
use wrong::BadLine;

// One place more than a tape has steps, so that a longer one is refused by 11 when it is written.
const STEP_PLACES: usize = tape::MOST_STEPS + 1;

pub type StepWords = ArrayVec<u64, STEP_PLACES>;

// A bad line, said piece by piece: where one cannot be written, the next is tried all the same.
fn refused(rt: &impl Eprint, bad: BadLine) -> Failure {
    let _ = rt.eprint("line ");
    let _ = rt.eprint(bad.line);
    let _ = rt.eprint(": ");
    let _ = rt.eprintln(bad.wrong);
    Failure::Refused
}

// The first boxes of the text on standard input, 0 where it has none, which 12 then refuses; the words of its steps go into the row, behind those that are there.
pub fn read_text(rt: &(impl Input + Eprint), steps: &mut StepWords) -> Result<u16, Failure> {
    let mut text = Text::new(steps);
    let mut buffer = [0u8; 4096];
    // No input is that long. A `for`, as a loop must be seen to end.
    for _ in 0..u64::MAX {
        let length = streams::read_some(rt, &mut buffer)?;
        if length == 0 {
            break;
        }
        text.take(&buffer[..length])
            .map_err(|bad| refused(rt, bad))?;
    }
    text.end().map_err(|bad| refused(rt, bad))
}
