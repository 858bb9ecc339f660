// A tape listed: its text form, which can be written as the tape again, with the answer of each step behind a colon.
use crate::answers::Answer;
use crate::refused::say_refused;
use crate::shown::Form;
use devices::{Outcome, Step};
use refusals::Refusal;
use std::fmt;
use streams::Failure;

#[derive(Clone, Copy)]
pub struct Listed;

impl Form for Listed {
    fn write_head<W: fmt::Write>(&self, out: &mut W, first: u16) -> fmt::Result {
        writeln!(out, "first {first:04x}")
    }

    fn write_step<W: fmt::Write>(
        &self,
        out: &mut W,
        _number: usize,
        step: Step,
        outcome: Outcome,
    ) -> fmt::Result {
        writeln!(out, "{} : {}", Text(step), Answer(outcome))
    }

    // On standard error; nothing is listed.
    fn refuse(&self, rt: &(impl Print + Eprint), refusal: Refusal) -> Result<(), Failure> {
        say_refused(rt, refusal);
        Err(Failure::Refused)
    }
}

// A step in the text form. The notes have two digits where none of the last eight of the sixteen is there, which is a short Ask on
// the tape, else four.
#[derive(Clone, Copy)]
struct Text(Step);

impl fmt::Display for Text {
    fn fmt<W: fmt::Write>(&self, f: &mut fmt::Formatter<W>) -> fmt::Result {
        match self.0 {
            Step::Ask {
                tablet,
                notes,
                pair,
            } => {
                let digits = if notes <= 0xff { 2 } else { 4 };
                write!(
                    f,
                    "ask {tablet} {notes:0digits$x} {:04x} {:04x}",
                    pair.added, pair.removed
                )
            }
            Step::Advance(tablet) => write!(f, "advance {tablet}"),
            Step::Deliver(slot) => write!(f, "deliver {slot}"),
            Step::Lose(slot) => write!(f, "lose {slot}"),
            Step::Repeat(slot) => write!(f, "repeat {slot}"),
            Step::Stop(device) => write!(f, "stop {device}"),
        }
    }
}
