// What the list of changes gives: the place of a change, sets of listed changes, and the configurations that a round queries.
#![tactic(auto)]

ghost use Rattle.std.specs.Prelude.{◌≡◌, ◌⊎◌, ◌<◌, ◌≤◌};
ghost use Rattle.books.specs.Queried.{place_of, outside, joined_with, every_majority, asked_boxes};

use crate::{Config, Listed};
use sets::Joins;

impl Listed {
    // The place of a change among the listed ones, or their number. No Option: `ask_pair` (rules/specs) compares the place with the count,
    // which may be over six in a list that is no state's, and an Option makes of that a branch of its own there (tried).
    pub fn place_of(self, change: Config) -> usize
        ensures { result ≡ place_of self change }
    {
        self.changes
            .iter()
            .take(self.count)
            .position(|other| change == *other)
            .unwrap_or(self.count.min(6))
    }

    // Of a set of changes, those not contained in a configuration.
    pub fn outside(self, config: Config, t: u8) -> u8
        ensures { result ≡ outside self config t }
    {
        let mut out = 0;
        for (k, change) in self.changes.iter().enumerate() {
            if (t >> k) % 2 == 1 && !change.is_inside(config) {
                out |= 1 << k;
            }
        }
        out
    }

    // A configuration joined with the changes of a set. The two stand apart, as in specs/Queried.antt: they come from a device's contents, from
    // what a round saved, or are one of many subsets. No shared test of a set's bit (five places): no bound says what `>>` gives.
    pub fn joined_with(self, config: Config, t: u8) -> Config
        ensures { result ≡ joined_with self config t }
    {
        let mut joined = config;
        for (k, change) in self.changes.iter().enumerate() {
            if (t >> k) % 2 == 1 {
                joined = joined.join(*change);
            }
        }
        joined
    }

    // Whether every queried configuration has a majority among the boxes that answered. No subset of t is a larger number than t,
    // and none of a set of the six places is larger than 63.
    pub fn every_majority(self, config: Config, t: u8, answered: u16) -> bool
        ensures { result ≡ every_majority self config t answered }
    {
        let end = t.min(63) + 1;
        (0..end)
            .filter(|subset| subset.is_inside(t))
            .map(|subset| self.joined_with(config, subset))
            .all(|queried| queried.has_majority(answered))
    }

    // The boxes that are members of any queried configuration. The walk stands here again: its closures have no type that a function could give,
    // an iterator of our own with its members and their proofs is longer than these three lines, and one fold for both would not stop early.
    pub fn asked_boxes(self, config: Config, t: u8) -> u16
        ensures { result ≡ asked_boxes self config t }
    {
        let end = t.min(63) + 1;
        (0..end)
            .filter(|subset| subset.is_inside(t))
            .map(|subset| self.joined_with(config, subset))
            .fold(0, |boxes, queried| boxes.join(queried.members()))
    }
}
