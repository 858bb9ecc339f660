// The table of the steps, as far as the code reads it: the number that a step names, and whether the number of free slots matters to it.
ghost use Rattle.std.specs.Prelude.{◌≡◌};
ghost use Rattle.rules.specs.Table.{about_step, in_range};

use devices::Step;

// The number that a step names: a tablet's, a slot's or a device's.
#[derive(Clone, Copy)]
pub enum Named {
    Tablet(u8),
    Slot(u8),
    Device(u8),
}

#[derive(Clone, Copy)]
pub struct About {
    pub names: Named,
    pub counts: bool,
}

// What the table has of a step.
pub fn about_step(step: Step) -> About
    ensures { result ≡ about_step step }
{
    match step {
        Step::Ask {
            tablet,
            notes: _,
            pair: _,
        } => About {
            names: Named::Tablet(tablet),
            counts: true,
        },
        Step::Advance(tablet) => About {
            names: Named::Tablet(tablet),
            counts: true,
        },
        Step::Deliver(slot) => About {
            names: Named::Slot(slot),
            counts: false,
        },
        Step::Lose(slot) => About {
            names: Named::Slot(slot),
            counts: false,
        },
        Step::Repeat(slot) => About {
            names: Named::Slot(slot),
            counts: true,
        },
        Step::Stop(device) => About {
            names: Named::Device(device),
            counts: false,
        },
    }
}

impl Named {
    // Whether the tablet, slot or device that is named is one.
    pub(crate) fn in_range(self) -> bool
        ensures { result ≡ in_range self }
    {
        match self {
            Named::Tablet(n) => n <= 7,
            Named::Slot(n) => n <= 127,
            Named::Device(n) => n <= 23,
        }
    }
}
