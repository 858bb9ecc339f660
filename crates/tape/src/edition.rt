// The editions of the tape, and what stands around the steps of each: the head and the end mark. The fields of the steps are in layout.rt.
ghost use Rattle.std.specs.Prelude.{◌≡◌};
ghost use Rattle.tape.specs.Edition.{edition_of, mark_in, head_in};
ghost use Rattle.tape.specs.Reading.{start};

// A case for each edition: what is below the public calls takes one, and never meets a number that names none.
#[derive(Clone, Copy)]
pub(crate) enum Edition {
    First,
}

// The end mark: the kind that it begins with and the bits behind that, all its bits as one number, and how many they are.
#[derive(Clone, Copy)]
pub(crate) struct Mark {
    pub(crate) kind: u64,
    pub(crate) rest: u64,
    pub(crate) number: u64,
    pub(crate) width: usize,
}

// The head: the bit at which the set of first boxes begins, and how many bits stand before the steps.
#[derive(Clone, Copy)]
pub(crate) struct Head {
    pub(crate) boxes: usize,
    pub(crate) width: usize,
}

impl Edition {
    // The end mark.
    pub(crate) fn mark(self) -> Mark
        ensures { result ≡ mark_in (edition_of self) }
    {
        match self {
            // Kind 7 alone.
            Edition::First => Mark {
                kind: 7,
                rest: 0,
                number: 7,
                width: 3,
            },
        }
    }

    // The head.
    pub(crate) fn head(self) -> Head
        ensures { result ≡ head_in (edition_of self) }
    {
        match self {
            // The set of first boxes alone.
            Edition::First => Head {
                boxes: 0,
                width: 16,
            },
        }
    }

    // The bit of the part behind the first two bytes at which the steps begin.
    pub(crate) fn start(self) -> usize
        ensures { result ≡ start (edition_of self) }
    {
        self.head().width - 16
    }
}
