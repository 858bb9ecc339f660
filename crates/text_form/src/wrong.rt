// What may be wrong with a line of a text, and how that is said.
use crate::fields::Field;
use std::fmt;

#[derive(Clone, Copy)]
pub(crate) enum Wrong {
    NoStep,
    StepMissing,
    NumberMissing,
    NoDecimal,
    NoHex,
    Over(Field),
    Behind,
    BehindFirst,
    NotFirst,
    FirstAgain,
}

// A bad line: its number, and what is wrong with it.
#[derive(Clone, Copy)]
pub(crate) struct BadLine {
    pub(crate) line: u64,
    pub(crate) wrong: Wrong,
}

impl fmt::Display for Wrong {
    fn fmt<W: fmt::Write>(&self, f: &mut fmt::Formatter<W>) -> fmt::Result {
        f.write_str(match self {
            Wrong::NoStep => "no such step",
            Wrong::StepMissing => "a step is missing",
            Wrong::NumberMissing => "a number is missing",
            Wrong::NoDecimal => "a number is not in decimal digits",
            Wrong::NoHex => "a set is not in hexadecimal digits",
            Wrong::Over(Field::Tablet) => "tablet over 7",
            Wrong::Over(Field::Notes) => "own notes over ffff",
            Wrong::Over(Field::Boxes) => "a set of boxes over ffff",
            Wrong::Over(Field::Slot) => "slot over 127",
            Wrong::Over(Field::Device) => "device over 23",
            Wrong::Behind => "something stands behind the step",
            Wrong::BehindFirst => "something stands behind the first boxes",
            Wrong::NotFirst => "the first boxes come first",
            Wrong::FirstAgain => "the first boxes stand in an earlier line",
        })
    }
}
