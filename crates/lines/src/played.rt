// A tape played (01, "The tape").
use crate::answers::Answer;
use crate::shown::Form;
use devices::{Outcome, Phase, Step, Tablet};
use refusals::Refusal;
use state::Run;
use std::fmt;
use std::fmt::Write;
use streams::{Failure, Output};

// Played from a fresh start, or from a run whose tablets start idle in a round: no tape reaches the last rounds from a fresh start.
#[derive(Clone, Copy)]
pub struct Played {
    pub from: Option<u16>,
}

impl Form for Played {
    fn start(&self, fresh: Run) -> Run {
        match self.from {
            None => fresh,
            Some(round) => idle_in(fresh, round),
        }
    }

    // Its number, its name and its answer.
    fn write_step<W: fmt::Write>(
        &self,
        out: &mut W,
        number: usize,
        step: Step,
        outcome: Outcome,
    ) -> fmt::Result {
        writeln!(out, "{number} {} {}", name(step), Answer(outcome))
    }

    // The number of steps, the number of books handed back.
    fn write_end<W: fmt::Write>(&self, out: &mut W, steps: usize, books: usize) -> fmt::Result {
        writeln!(out, "END {steps} {books}")
    }

    // A line in place of the steps.
    fn refuse(&self, rt: &(impl Print + Eprint), refusal: Refusal) -> Result<(), Failure> {
        let mut out = Output::new(rt);
        writeln!(out, "BAD {}", u8::from(refusal))?;
        out.end()?;
        Err(Failure::Refused)
    }
}

fn idle_in(mut run: Run, round: u16) -> Run {
    let tablet = Tablet {
        round,
        phase: Phase::Idle,
    };
    run.tablets = [tablet; 8];
    run
}

// The name that a played step prints. No Display: a newtype and its impl are longer than this match, for one use.
fn name(step: Step) -> &'static str {
    match step {
        Step::Ask { .. } => "ASK",
        Step::Advance(_) => "ADV",
        Step::Deliver(_) => "DLV",
        Step::Lose(_) => "LOS",
        Step::Repeat(_) => "REP",
        Step::Stop(_) => "STP",
    }
}
