// Joining and containment, once for all that is joined set by set: sets of boxes, of notes and of listed changes here; notes,
// configurations and books in the crate of books.
#![tactic(auto)]

ghost use Rattle.std.specs.Prelude.{◌≡◌, Bool, refl};
ghost use Rattle.sets.specs.Sets.{union, inside};
ghost use Rattle.sets.specs.Semilattice.{Semilattice};
ghost use Rattle.sets.specs.Joined.{sets-joined};

pub trait Joins: Copy + PartialEq {
    // "Joining is union, set by set.": what joining two gives.
    ghost join_gives: { Self → Self → Self };

    // "One contains another when each of the three sets does": whether the first is contained in the second.
    ghost inside_gives: { Self → Self → Bool };

    fn join(self, other: Self) -> Self
        ensures { result ≡ join_gives self other };

    fn is_inside(self, other: Self) -> bool
        ensures { result ≡ inside_gives self other }
    {
        self.join(other) == other
    }

    // In any grouping, in any order, and with itself a thing is itself; from this follow the laws of containment.
    ghost laws: { Semilattice inside_gives join_gives };

    // Contained is what adds nothing.
    ghost adds_nothing: { (a b : Self) → Self.eq (join_gives a b) b ≡ inside_gives a b };
}

// The three differ in their type alone: no bound says what `|` gives, and there are no macros of our own.

// A set of listed changes.
impl Joins for u8 {
    ghost join_gives = { union };

    ghost inside_gives = { inside };

    fn join(self, other: u8) -> u8 {
        self | other
    }

    ghost laws = { sets-joined };

    ghost adds_nothing = { λ a b. refl };
}

// A set of boxes.
impl Joins for u16 {
    ghost join_gives = { union };

    ghost inside_gives = { inside };

    fn join(self, other: u16) -> u16 {
        self | other
    }

    ghost laws = { sets-joined };

    ghost adds_nothing = { λ a b. refl };
}

// A part of the notes.
impl Joins for u64 {
    ghost join_gives = { union };

    ghost inside_gives = { inside };

    fn join(self, other: u64) -> u64 {
        self | other
    }

    ghost laws = { sets-joined };

    ghost adds_nothing = { λ a b. refl };
}
