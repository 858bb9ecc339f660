// Examples of writing, in the order of its numbers: 12; 14; 11; 16.
use crate::said::Group;
use crate::writes::Writing::{self, Long, Word};

// Words: Stop of device 0, and a long Ask with no note, which is no step.
const STOP: u64 = 0xa000000000000000;

const NO_NOTE: u64 = 0xc000000000000000;

pub(crate) const WRITINGS: [Group<'static, Writing>; 10] = [
    Group {
        about: "12 write no first box, and first box 0 or 15",
        examples: &[
            Word(0, STOP, 8),
            Word(0x0001, STOP, 8),
            Word(0x8000, STOP, 8),
        ],
    },
    Group {
        about: "14 write the end mark, and kind 5",
        examples: &[Word(0x0007, 0xe000000000000000, 8), Word(0x0007, STOP, 8)],
    },
    Group {
        about: "14 write a long Ask with its first eight notes alone, with none, and with the first of its last eight",
        examples: &[
            Word(0x0007, 0xc003fc0000000000, 10),
            Word(0x0007, NO_NOTE, 10),
            Word(0x0007, 0xc004000000000000, 10),
        ],
    },
    Group {
        about: "14 write device 24, and device 23",
        examples: &[
            Word(0x0007, 0xb800000000000000, 8),
            Word(0x0007, 0xb700000000000000, 8),
        ],
    },
    Group {
        about: "14 write an Advance with a bit below its 6, the first or the last one, and with the last of the 6",
        examples: &[
            Word(0x0007, 0x2200000000000000, 8),
            Word(0x0007, 0x2000000000000001, 8),
            Word(0x0007, 0x2400000000000000, 8),
        ],
    },
    Group {
        about: "14 write a long Ask with the first bit below its 54, and with the last of the 54",
        examples: &[
            Word(0x0007, 0xc004000000000200, 10),
            Word(0x0007, 0xc004000000000400, 10),
        ],
    },
    Group {
        about: "11 write a tape over 4096 bytes, and one of 4096",
        examples: &[
            Long {
                count: 4094,
                last: STOP,
                size: 4097,
            },
            Long {
                count: 4093,
                last: STOP,
                size: 4097,
            },
        ],
    },
    Group {
        about: "16 write four bytes into a buffer of three, of four and of eight",
        examples: &[
            Word(0x0007, STOP, 3),
            Word(0x0007, STOP, 4),
            Word(0x0007, STOP, 8),
        ],
    },
    Group {
        about: "16 write 4096 bytes into a buffer of one byte less, and of as many",
        examples: &[
            Long {
                count: 4093,
                last: STOP,
                size: 4095,
            },
            Long {
                count: 4093,
                last: STOP,
                size: 4096,
            },
        ],
    },
    Group {
        about: "12 goes before 14, 14 before 11, 11 before 16, 14 before 16",
        examples: &[
            Word(0, NO_NOTE, 0),
            Long {
                count: 4094,
                last: NO_NOTE,
                size: 0,
            },
            Long {
                count: 4094,
                last: STOP,
                size: 0,
            },
            Word(0x0007, NO_NOTE, 0),
        ],
    },
];
