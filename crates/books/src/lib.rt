// Notes, configurations and books, and how they are joined; the list of changes, of which the queried configurations are made in changes.rt.
#![tactic(auto)]

ghost use Rattle.std.specs.Prelude.{◌≡◌, Bool, refl};
ghost use Rattle.books.specs.Books.{notes_part, own_notes, no_book, notes_inside, config_inside, book_inside, join_notes, join_configs, join_books, same_notes, same_config, members_of, has_majority};
ghost use Rattle.books.specs.Joined.{notes-joined, configs-joined, books-joined};

mod changes;

use sets::Joins;

// Which values are the same, of a type whose `==` is derived.
pub trait Same: PartialEq {
    ghost same_gives: { Self → Self → Bool };

    // What `==` gives.
    ghost decides: { (a b : Self) → Self.eq a b ≡ same_gives a b };
}

// Notes as a set of 128: note n has weight 2^n in `low`, from 64 on 2^(n - 64) in `high`. Only this crate takes them apart.
// Two words and no `u128`: `notes_part` (specs/Books.antt) and `InWords` (specs/Statements.antt) speak of parts of 64 bits.
#[derive(Clone, Copy, Default, PartialEq, Eq, Debug)]
pub struct Notes {
    low: u64,
    high: u64,
}

#[derive(Clone, Copy, Default, PartialEq, Eq, Debug)]
pub struct Config {
    pub added: u16,
    pub removed: u16,
}

#[derive(Clone, Copy, Default, PartialEq, Eq, Debug)]
pub struct Book {
    pub notes: Notes,
    pub config: Config,
}

// The list of changes: the first `count` of six places. The count stands beside the places, and may be over 6, because a caller gives
// the list: that a state has over 6 changes must be sayable of it, so that it can be refused.
#[derive(Clone, Copy, Default, PartialEq, Eq, Debug)]
pub struct Listed {
    pub changes: [Config; 6],
    pub count: usize,
}

impl Notes {
    // How many parts of 64 notes there are.
    pub const PARTS: usize = 2;

    // A tablet's own notes at their places among all; a tablet over 7 owns none.
    pub fn own(tablet: u8, own: u16) -> Notes
        ensures { result ≡ own_notes tablet own }
    {
        let placed = (own as u64) << (16 * (tablet % 4));
        match tablet {
            0..=3 => Notes {
                low: placed,
                high: 0,
            },
            4..=7 => Notes {
                low: 0,
                high: placed,
            },
            _ => Notes::default(),
        }
    }

    // Part k of the notes, 64 k to 64 k + 63, the lowest having weight 1; none beyond the last part.
    pub fn part(self, k: usize) -> u64
        ensures { result ≡ notes_part self k }
    {
        match k {
            0 => self.low,
            1 => self.high,
            _ => 0,
        }
    }
}

impl Joins for Notes {
    ghost join_gives = { join_notes };

    ghost inside_gives = { notes_inside };

    fn join(self, other: Notes) -> Notes {
        Notes {
            low: self.low.join(other.low),
            high: self.high.join(other.high),
        }
    }

    ghost laws = { notes-joined };

    ghost adds_nothing = { λ a b. refl };
}

impl Same for Notes {
    ghost same_gives = { same_notes };

    ghost decides = { λ a b. refl };
}

impl Config {
    // The boxes added and not removed.
    pub fn members(self) -> u16
        ensures { result ≡ members_of self }
    {
        sets::members_of(self.added, self.removed)
    }

    // Whether more than half of the members answered.
    pub fn has_majority(self, answered: u16) -> bool
        ensures { result ≡ has_majority self answered }
    {
        sets::majority(self.added, self.removed, answered)
    }
}

impl Joins for Config {
    ghost join_gives = { join_configs };

    ghost inside_gives = { config_inside };

    fn join(self, other: Config) -> Config {
        Config {
            added: self.added.join(other.added),
            removed: self.removed.join(other.removed),
        }
    }

    ghost laws = { configs-joined };

    ghost adds_nothing = { λ a b. refl };
}

impl Same for Config {
    ghost same_gives = { same_config };

    ghost decides = { λ a b. refl };
}

impl Book {
    // The book of no notes and no boxes.
    pub fn none() -> Book
        ensures { result ≡ no_book }
    {
        Book::default()
    }
}

impl Joins for Book {
    ghost join_gives = { join_books };

    ghost inside_gives = { book_inside };

    fn join(self, other: Book) -> Book {
        Book {
            notes: self.notes.join(other.notes),
            config: self.config.join(other.config),
        }
    }

    ghost laws = { books-joined };

    ghost adds_nothing = { λ a b. refl };
}
