// The numbers of a line, word by word, each within the bound of what it stands for.
ghost use Rattle.std.specs.Prelude.{◌<◌, ◌^◌, IfOk};

use crate::wrong::Wrong;
use std::slice;
use streams::Word;

// What a number of a line stands for.
#[derive(Clone, Copy)]
pub(crate) enum Field {
    Tablet,
    Notes,
    Boxes,
    Slot,
    Device,
}

impl Field {
    fn most(self) -> u64
        ensures { result < 2 ^ 16 }
    {
        match self {
            Field::Tablet => 7,
            Field::Notes | Field::Boxes => 0xffff,
            Field::Slot => 127,
            Field::Device => 23,
        }
    }

    // The number that a word is: of a set in hexadecimal digits, else in decimal ones.
    fn number(self, word: &Word) -> Result<u64, Wrong> {
        match self {
            Field::Notes | Field::Boxes => word.hex.ok_or(Wrong::NoHex),
            Field::Tablet | Field::Slot | Field::Device => word.decimal.ok_or(Wrong::NoDecimal),
        }
    }
}

// The words of a line that are still to be read as numbers.
#[derive(Drop)]
pub(crate) struct Numbers<'a> {
    left: slice::Iter<'a, Word>,
}

impl<'a> Numbers<'a> {
    pub(crate) fn new(words: &'a [Word]) -> Self {
        Numbers { left: words.iter() }
    }

    pub(crate) fn next(&mut self, field: Field) -> Result<u64, Wrong>
        ensures { IfOk result (λ number. number < 2 ^ 16) }
    {
        let word = self.left.next().ok_or(Wrong::NumberMissing)?;
        let number = field.number(word)?;
        if field.most() < number {
            return Err(Wrong::Over(field));
        }
        Ok(number)
    }

    // Nothing may stand behind the last number.
    pub(crate) fn end(self, behind: Wrong) -> Result<(), Wrong> {
        if self.left.len() == 0 {
            Ok(())
        } else {
            Err(behind)
        }
    }
}
