// A tape is read into a row, and what comes back is printed. Each place of the row holds 7 before and is shown after: a refusal
// leaves it, and an accepted tape leaves the places beyond its steps.
ghost use Rattle.std.specs.Prelude.{◌≤◌, length};

use crate::said::{Bytes, Example, lent, say};
use tape::Recorded;

// A tape, and how many places of a row are lent to read it.
#[derive(Clone, Copy)]
pub(crate) enum Reading<'a> {
    // These bytes, into a row of three.
    Tape(&'a [u8], usize),
    // So many bytes: first boxes, Stop of device 0 in each byte, and the end mark in the last one. Into a row of 4,094.
    Long {
        size: usize,
        first: u8,
        places: usize,
    },
}

impl Example for Reading<'_> {
    fn show(&self, rt: &impl Print) {
        match *self {
            Reading::Tape(tape, places) => read(rt, tape, places),
            Reading::Long {
                size,
                first,
                places,
            } => read_long(rt, size, first, places),
        }
    }
}

fn read(rt: &impl Print, tape: &[u8], places: usize) {
    let (boxes, steps) = tape.split_at(tape.len().min(2));
    say(rt, "  ");
    say(rt, Bytes(boxes));
    say(rt, Bytes(steps));
    read_into(rt, tape, &mut [7; 3], places);
}

fn read_long(rt: &impl Print, size: usize, first: u8, places: usize) {
    say(rt, "  ");
    say(rt, size);
    say(rt, " bytes with first boxes ");
    say(rt, format_args!("{first:04x}"));
    let mut bytes = [0xa0; 4097];
    let size = lent(size, &bytes);
    let tape = &mut bytes[..size];
    if let [low, high, .., last] = tape {
        *low = 0;
        *high = first;
        *last = 0xe0;
    }
    read_into(rt, tape, &mut [7; 4094], places);
}

fn say_recorded(rt: &impl Print, recorded: Recorded) {
    let first = recorded.first;
    say(rt, "0 first ");
    say(rt, format_args!("{first:04x}"));
    say(rt, " steps ");
    say(rt, recorded.steps);
}

fn say_word(rt: &impl Print, word: u64) {
    say(rt, " ");
    say(rt, format_args!("{word:x}"));
}

// Reads a tape into the first places of a row, of which the first and the last two are shown.
fn read_into(rt: &impl Print, tape: &[u8], row: &mut [u64], places: usize)
    requires { 3 ≤ length row.old }
{
    let places = lent(places, row);
    say(rt, " into ");
    say(rt, places);
    say(rt, " places: ");
    match tape::read_tape(tape, &mut row[..places]) {
        Ok(recorded) => say_recorded(rt, recorded),
        Err(refusal) => say(rt, u8::from(refusal)),
    }
    say(rt, ", check ");
    say(rt, tape::tape_check(tape).err().map_or(0, u8::from));
    say(rt, ", row");
    say_word(rt, row[0]);
    say_word(rt, row[row.len() - 2]);
    say_word(rt, row[row.len() - 1]);
    say(rt, "\n");
}
