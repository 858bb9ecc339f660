// What the tablet app calls from C: the tape check and the majority test, on plain numbers and bytes. A lent slice is a pointer and then a length.
#![tactic(auto)]

ghost use Rattle.std.specs.Prelude.{◌≡◌};
ghost use Rattle.sets.specs.Majority.{majority_of};
ghost use Rattle.tape.specs.Promises.{CheckPromise};

// Whether more than half of the boxes added and not removed answered: yes or no for any three sets.
#[unsafe(no_mangle)]
pub extern "C" fn parlour_majority(added: u16, removed: u16, answered: u16) -> bool
    ensures { result ≡ majority_of added removed answered }
{
    sets::majority(added, removed, answered)
}

// The number that reading a tape gives with a row long enough; 0 for a tape that is one. A plain number, as the app calls it from C.
#[unsafe(no_mangle)]
pub extern "C" fn parlour_tape_check(tape: &[u8]) -> u8
    ensures { CheckPromise tape.now result }
{
    tape::tape_check(tape).err().map_or(0, u8::from)
}
