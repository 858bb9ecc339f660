// A line of a text: the first boxes, or a step as the word of the tape.
use crate::encoded::encode;
use crate::fields::{Field, Numbers};
use crate::wrong::Wrong;
use streams::Word;
use tape::Fields;

// What a line says. `Nothing` is a case: with an Option, `Line::of` would give a Result of an Option, and `take_line` match both.
#[derive(Clone, Copy)]
pub(crate) enum Line {
    Nothing,
    First(u16),
    // A step's word, and how many such steps.
    Steps { word: u64, times: u64 },
}

// A step that names a tablet, a slot or a device. The kind is a number, as `tape::Fields` has it.
fn one(kind: u64, field: Field, words: &[Word]) -> Result<Fields, Wrong> {
    let mut numbers = Numbers::new(words);
    let first = numbers.next(field)?;
    numbers.end(Wrong::Behind)?;
    Ok(Fields {
        kind,
        first,
        ..Fields::default()
    })
}

// The short Ask where none of the last eight of the sixteen notes is there, else the long one.
fn ask_kind(notes: u64) -> u64 {
    if notes <= 0xff { 0 } else { 6 }
}

fn ask(words: &[Word]) -> Result<Fields, Wrong> {
    let mut numbers = Numbers::new(words);
    let first = numbers.next(Field::Tablet)?;
    let second = numbers.next(Field::Notes)?;
    let third = numbers.next(Field::Boxes)?;
    let fourth = numbers.next(Field::Boxes)?;
    numbers.end(Wrong::Behind)?;
    Ok(Fields {
        kind: ask_kind(second),
        first,
        second,
        third,
        fourth,
    })
}

fn step(words: &[Word]) -> Result<Fields, Wrong> {
    match words {
        [name, rest @ ..] if name.is("ask") => ask(rest),
        [name, rest @ ..] if name.is("advance") => one(1, Field::Tablet, rest),
        [name, rest @ ..] if name.is("deliver") => one(2, Field::Slot, rest),
        [name, rest @ ..] if name.is("lose") => one(3, Field::Slot, rest),
        [name, rest @ ..] if name.is("repeat") => one(4, Field::Slot, rest),
        [name, rest @ ..] if name.is("stop") => one(5, Field::Device, rest),
        _ => Err(Wrong::NoStep),
    }
}

fn steps_line(words: &[Word], times: u64) -> Result<Line, Wrong> {
    let word = encode(step(words)?).ok_or(Wrong::NoStep)?;
    Ok(Line::Steps { word, times })
}

fn times_line(count: &Word, words: &[Word]) -> Result<Line, Wrong> {
    let times = count.decimal.ok_or(Wrong::NoDecimal)?;
    if words.is_empty() {
        return Err(Wrong::StepMissing);
    }
    steps_line(words, times)
}

fn first_line(words: &[Word]) -> Result<Line, Wrong> {
    let mut numbers = Numbers::new(words);
    let first = numbers.next(Field::Boxes)?;
    numbers.end(Wrong::BehindFirst)?;
    Ok(Line::First(first as u16))
}

impl Line {
    pub(crate) fn of(words: &[Word]) -> Result<Line, Wrong> {
        match words {
            [] => Ok(Line::Nothing),
            [name, rest @ ..] if name.is("first") => first_line(rest),
            [count, times, rest @ ..] if times.is("times") => times_line(count, rest),
            _ => steps_line(words, 1),
        }
    }
}
