// The layout of a step by its kind: one table, which the reader and the writer share.
ghost use Rattle.std.specs.Prelude.{◌≡◌, ◌+◌, ◌≤◌};
ghost use Rattle.tape.specs.Edition.{edition_of, first_edition};
ghost use Rattle.tape.specs.Layout.{fields, layout_with, layout_of, within, allowed};
ghost use Rattle.tape.specs.Writing.{step_width};

use crate::bits::{field, top};
use crate::edition::Edition;

// The one field of a step that may not hold whatever fits: its first bit, how many bits it has, the least and the most that it may hold.
#[derive(Clone, Copy)]
pub(crate) struct Bound {
    pub(crate) from: usize,
    pub(crate) width: usize,
    pub(crate) least: u64,
    pub(crate) most: u64,
}

// How many bits a step takes with its kind; the bits of each of its fields, in their order; and its bound, if it has one.
#[derive(Clone, Copy)]
pub(crate) struct Layout {
    pub(crate) width: usize,
    pub(crate) first: usize,
    pub(crate) second: usize,
    pub(crate) third: usize,
    pub(crate) fourth: usize,
    pub(crate) bound: Option<Bound>,
}

impl Bound {
    // The field of a word holds a number that it may hold.
    fn holds(self, word: u64) -> bool
        ensures { result ≡ within self word }
    {
        let number = field(word, self.from, self.width);
        self.least <= number && number <= self.most
    }
}

impl Layout {
    // A step of so many fields: its width is their sum with the 3 bits of the kind.
    fn with(first: usize, second: usize, third: usize, fourth: usize, bound: Option<Bound>) -> Self
        requires { first + second + third + fourth ≤ 61 }
        ensures { result ≡ layout_with first second third fourth bound }
    {
        Layout {
            width: 3 + first + second + third + fourth,
            first,
            second,
            third,
            fourth,
            bound,
        }
    }

    // The layout of a kind in the first edition; none where no step has the kind. 01 names this form: a match on the number.
    fn in_first(kind: u64) -> Option<Self>
        ensures { result ≡ layout_of (fields first_edition kind) }
    {
        Some(match kind {
            // Ask: tablet, own notes, added, removed.
            0 => Layout::with(3, 8, 16, 16, None),
            // Advance: tablet.
            1 => Layout::with(3, 0, 0, 0, None),
            // Deliver, Lose, Repeat: slot.
            2 | 3 | 4 => Layout::with(7, 0, 0, 0, None),
            // Stop: device, below 24.
            5 => {
                let device = Bound {
                    from: 3,
                    width: 5,
                    least: 0,
                    most: 23,
                };
                Layout::with(5, 0, 0, 0, Some(device))
            }
            // Long Ask: as Ask; its last eight notes, which weigh 256 and more, are not all absent.
            6 => {
                let notes = Bound {
                    from: 6,
                    width: 16,
                    least: 256,
                    most: 65535,
                };
                Layout::with(3, 16, 16, 16, Some(notes))
            }
            _ => return None,
        })
    }

    // The fields of a step word hold numbers that they may hold.
    pub(crate) fn allows(self, word: u64) -> bool
        ensures { result ≡ allowed self.bound word }
    {
        self.bound.is_none_or(|bound| bound.holds(word))
    }
}

impl Edition {
    // The layout of a kind; none where no step has the kind.
    pub(crate) fn layout(self, kind: u64) -> Option<Layout>
        ensures { result ≡ layout_of (fields (edition_of self) kind) }
    {
        match self {
            Edition::First => Layout::in_first(kind),
        }
    }

    // How many bits the step in a word takes; none for a word that is no step.
    pub(crate) fn step_width(self, word: u64) -> Option<usize>
        ensures { result ≡ step_width (edition_of self) word }
    {
        let layout = self.layout(field(word, 0, 3))?;
        if top(word, layout.width) == word && layout.allows(word) {
            Some(layout.width)
        } else {
            None
        }
    }
}
