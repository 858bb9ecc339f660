// The tape of recorded steps (01, "The tape"): its check, its reader and its writer, and the fields of a step word.
// Each call takes anything at all, and gives its result or one refusal.
#![tactic(auto)]

ghost use Rattle.std.specs.Prelude.{◌≡◌};
ghost use Rattle.tape.specs.Edition.{first_edition};
ghost use Rattle.tape.specs.Layout.{fields_in};
ghost use Rattle.tape.specs.Writing.{is_step};
ghost use Rattle.tape.specs.Promises.{number_of, CheckPromise, ReadPromise, WritePromise};

mod bits;
mod edition;
mod layout;
mod reading;
mod writing;

use edition::Edition;
use reading::Part;
use refusals::Refusal;

// How many bytes a tape has at most (01, "The tape").
pub const MOST_BYTES: usize = 4096;

// How many steps such a tape has at most: a step takes 6 bits at least.
pub const MOST_STEPS: usize = 5458;

// What a tape holds: its first boxes, and how many words of the row its steps take.
#[derive(Clone, Copy, Debug, PartialEq, Eq)]
pub struct Recorded {
    pub first: u16,
    pub steps: usize,
}

// The kind of a step word and the numbers in its fields, in the order of the tape; 0 for a field that the kind has not.
// The kind is a number, as in `fields_in` and in the match that 01 names: a word that is no step has one too.
#[derive(Clone, Copy, Default, Debug, PartialEq, Eq)]
pub struct Fields {
    pub kind: u64,
    pub first: u64,
    pub second: u64,
    pub third: u64,
    pub fourth: u64,
}

// Whether reading a tape succeeds with a row long enough.
pub fn tape_check(tape: &[u8]) -> Result<(), Refusal>
    ensures { CheckPromise tape.now (number_of result) }
{
    Edition::First.check(tape)?;
    Ok(())
}

// A tape's steps as words in a lent row: each has its tape bits at the top, and zeros below.
pub fn read_tape(tape: &[u8], row: &mut [u64]) -> Result<Recorded, Refusal>
    ensures { ReadPromise tape.now row.old result row.new }
{
    let recorded = Edition::First.check(tape)?;
    if row.len() < recorded.steps {
        return Err(Refusal::RowTooShort);
    }
    // 01 names this form: the tape from the third byte on goes to the reader of the steps.
    let part = Part {
        edition: Edition::First,
        bytes: &tape[2..],
    };
    part.fill_row(row);
    Ok(recorded)
}

// First boxes and step words, two parameters as in the definition `write_tape`, as a tape in a lent buffer; how many bytes of it the tape takes.
pub fn write_tape(first: u16, words: &[u64], buffer: &mut [u8]) -> Result<usize, Refusal>
    ensures { WritePromise first words.now buffer.old result buffer.new }
{
    if first == 0 {
        return Err(Refusal::NoFirstBox);
    }
    let count = Edition::First.measure(words).ok_or(Refusal::NoStep)?;
    let size = 2 + Edition::First.bytes_for(count);
    if MOST_BYTES < size {
        return Err(Refusal::TapeTooLong);
    }
    if buffer.len() < size {
        return Err(Refusal::RowTooShort);
    }
    writing::lay_tape(buffer, first, words);
    Ok(size)
}

// Whether a word is a step: its tape bits at the top, its fields in range, and zeros below.
pub fn is_step(word: u64) -> bool
    ensures { result ≡ is_step first_edition word }
{
    Edition::First.step_width(word).is_some()
}

// The fields of a step word, by the layout of its kind.
pub fn fields_of(word: u64) -> Fields
    ensures { result ≡ fields_in first_edition word }
{
    let kind = bits::field(word, 0, 3);
    let Some(layout) = Edition::First.layout(kind) else {
        // Each field by name, as `fields_in` gives it.
        return Fields {
            kind,
            first: 0,
            second: 0,
            third: 0,
            fourth: 0,
        };
    };
    let second = 3 + layout.first;
    let third = second + layout.second;
    let fourth = third + layout.third;
    Fields {
        kind,
        first: bits::field(word, 3, layout.first),
        second: bits::field(word, second, layout.second),
        third: bits::field(word, third, layout.third),
        fourth: bits::field(word, fourth, layout.fourth),
    }
}
