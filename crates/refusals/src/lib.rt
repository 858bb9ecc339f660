// The refusals of the calls, one for each number that a caller gets back (01, "Numbers a caller gets back").
#![tactic(auto)]

ghost use Rattle.std.specs.Prelude.{◌≡◌};
ghost use Rattle.refusals.specs.Refusals.{number};

// Why a call is refused, with its number. 0 is no refusal: it is what a call gives that is done.
#[derive(Clone, Copy, Debug, PartialEq, Eq)]
pub enum Refusal {
    NoState = 1,
    OutOfRange = 2,
    Stopped = 3,
    Asking = 4,
    Idle = 5,
    NotAllowed = 6,
    EmptySlot = 7,
    SeventhChange = 8,
    LastRound = 9,
    NoRoom = 10,
    TapeTooLong = 11,
    NoFirstBox = 12,
    EndsTooSoon = 13,
    NoStep = 14,
    BehindTheEnd = 15,
    RowTooShort = 16,
}

impl From<Refusal> for u8 {
    ghost from_gives = { λ r n. n ≡ number r };

    fn from(refusal: Refusal) -> u8 {
        refusal as u8
    }
}
