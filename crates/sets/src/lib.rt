// Sets of boxes as the bits of a number, and the majority of a configuration.
#![tactic(auto)]

ghost use Rattle.std.specs.Prelude.{◌≡◌};
ghost use Rattle.sets.specs.Sets.{members};
ghost use Rattle.sets.specs.Bounded.{how_many};
ghost use Rattle.sets.specs.Majority.{majority_of};

mod joins;

pub use joins::Joins;

// The boxes added and not removed.
pub fn members_of(added: u16, removed: u16) -> u16
    ensures { result ≡ members added removed }
{
    added - (added & removed)
}

// How many boxes a set has.
pub fn count_boxes(boxes: u16) -> u32
    ensures { result ≡ how_many 16 boxes }
{
    boxes.count_ones()
}

// Whether more than half of the members answered: yes or no for any three sets, which are plain numbers since the tablet app calls it from C.
pub fn majority(added: u16, removed: u16, answered: u16) -> bool
    ensures { result ≡ majority_of added removed answered }
{
    let boxes = members_of(added, removed);
    count_boxes(boxes) < 2 * count_boxes(boxes & answered)
}
