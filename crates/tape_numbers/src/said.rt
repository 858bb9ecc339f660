// What the examples of reading and of writing share: how they are gone through, how much is lent, and how bytes are printed.
ghost use Rattle.streams.specs.Counts.{IsPrefixLen};

use std::fmt;
use std::fmt::Display;

// An example, which is tried and printed as a line.
pub(crate) trait Example {
    fn show(&self, rt: &impl Print);
}

// Examples, and the words for them, which begin with the number that they are about.
pub(crate) struct Group<'a, E> {
    pub about: &'a str,
    pub examples: &'a [E],
}

pub(crate) fn show_all<E: Example>(rt: &impl Print, groups: &[Group<'_, E>]) {
    for group in groups {
        let about = group.about;
        say(rt, format_args!("{about}\n"));
        for example in group.examples {
            example.show(rt);
        }
    }
}

// A piece of a line, one write each: where it cannot be printed, the next is tried all the same. So first boxes and what stands behind them
// are pieces of their own.
pub(crate) fn say(rt: &impl Print, piece: impl Display + Drop) {
    let _ = rt.print(piece);
}

// How many of some bytes or words are lent: a number of them, or all.
pub(crate) fn lent<T>(number: usize, all: &[T]) -> usize
    ensures { IsPrefixLen result all.now }
{
    number.min(all.len())
}

// Bytes, which are printed in hexadecimal digits.
#[derive(Clone, Copy)]
pub(crate) struct Bytes<'a>(pub &'a [u8]);

impl fmt::Display for Bytes<'_> {
    fn fmt<W: fmt::Write>(&self, f: &mut fmt::Formatter<W>) -> fmt::Result {
        for byte in self.0 {
            write!(f, "{byte:02x}")?;
        }
        Ok(())
    }
}
