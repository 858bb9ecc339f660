// A step's answer as the player and the lister print it: its number, and what an Advance adds to it.
use books::{Book, Notes};
use devices::{Accepted, Outcome};
use std::fmt;

#[derive(Clone, Copy)]
pub(crate) struct Answer(pub(crate) Outcome);

impl fmt::Display for Answer {
    fn fmt<W: fmt::Write>(&self, f: &mut fmt::Formatter<W>) -> fmt::Result {
        write!(f, "{}", devices::number_of(self.0))?;
        match self.0 {
            Ok(Accepted::Done) | Err(_) => Ok(()),
            Ok(Accepted::Round(round)) => write!(f, " R {round}"),
            Ok(Accepted::Committed(book)) => write!(f, " C {}", Handed(book)),
            Ok(Accepted::Adopted(book)) => write!(f, " A {}", Handed(book)),
        }
    }
}

// A book handed back: its notes in 16 digits for each part, the highest part first, then added and removed in 4 digits each.
#[derive(Clone, Copy)]
struct Handed(Book);

impl fmt::Display for Handed {
    fn fmt<W: fmt::Write>(&self, f: &mut fmt::Formatter<W>) -> fmt::Result {
        let book = self.0;
        // By their numbers: `Notes` hides its words, so there is no iterator over them.
        for part in (0..Notes::PARTS).rev() {
            write!(f, "{:016x}", book.notes.part(part))?;
        }
        let config = book.config;
        write!(f, " {:04x} {:04x}", config.added, config.removed)
    }
}
