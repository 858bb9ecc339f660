// A tape shown: it is read, its steps are taken from the start of a run, and each prints its line.
use devices::{Accepted, Outcome, Step};
use refusals::Refusal;
use state::Run;
use std::fmt;
use streams::{Failure, Output, read_all};

// A form in which a tape is shown.
pub trait Form {
    // The run that the steps are taken from, in place of a fresh one.
    fn start(&self, fresh: Run) -> Run {
        fresh
    }

    // What stands before the steps.
    fn write_head<W: fmt::Write>(&self, _out: &mut W, _first: u16) -> fmt::Result {
        Ok(())
    }

    // The line of a step.
    fn write_step<W: fmt::Write>(
        &self,
        out: &mut W,
        number: usize,
        step: Step,
        outcome: Outcome,
    ) -> fmt::Result;

    // What stands behind the steps.
    fn write_end<W: fmt::Write>(&self, _out: &mut W, _steps: usize, _books: usize) -> fmt::Result {
        Ok(())
    }

    // What a refused tape prints.
    fn refuse(&self, rt: &(impl Print + Eprint), refusal: Refusal) -> Result<(), Failure>;
}

fn hands_back_a_book(outcome: Outcome) -> bool {
    matches!(outcome, Ok(Accepted::Committed(_) | Accepted::Adopted(_)))
}

// Takes the steps from the start. A refused step leaves the run going.
fn write_steps<W: fmt::Write>(
    out: &mut W,
    form: &impl Form,
    first: u16,
    words: &[u64],
) -> fmt::Result {
    form.write_head(out, first)?;
    let mut run = form.start(state::start(first).run);
    let mut books: usize = 0;
    for (number, word) in words.iter().enumerate() {
        let stepped = replay::play_word(run, *word);
        run = stepped.run;
        if hands_back_a_book(stepped.outcome) {
            books += 1;
        }
        // Each word of a tape that was read is a step.
        if let Some(step) = replay::decode(*word) {
            form.write_step(out, number, step, stepped.outcome)?;
        }
    }
    form.write_end(out, words.len(), books)
}

fn show_steps(
    rt: &(impl Print + Eprint),
    form: &impl Form,
    first: u16,
    words: &[u64],
) -> Result<(), Failure> {
    let mut out = Output::new(rt);
    write_steps(&mut out, form, first, words)?;
    Ok(out.end()?)
}

fn show_tape(rt: &(impl Print + Eprint), form: &impl Form, tape: &[u8]) -> Result<(), Failure> {
    let mut row = [0u64; tape::MOST_STEPS];
    match tape::read_tape(tape, &mut row) {
        Ok(recorded) => show_steps(rt, form, recorded.first, &row[..recorded.steps]),
        Err(refusal) => form.refuse(rt, refusal),
    }
}

// Shows the tape on standard input.
pub fn show_input(rt: &(impl Input + Print + Eprint), form: &impl Form) -> Result<(), Failure> {
    // One byte more than a tape has at most, so that a longer one is refused by 11.
    let mut bytes = [0u8; tape::MOST_BYTES + 1];
    let length = read_all(rt, &mut bytes)?;
    show_tape(rt, form, &bytes[..length])
}
