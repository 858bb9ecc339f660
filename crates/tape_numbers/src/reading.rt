// Examples of reading, in the order of its numbers: 11; 13 under three bytes; 12; 13 or 14 at the first step that has it; 15; 16.
use crate::reads::Reading::{self, Long, Tape};
use crate::said::Group;

pub(crate) const READINGS: [Group<'static, Reading<'static>>; 15] = [
    Group {
        about: "11 read a tape over 4096 bytes, and one of 4096",
        examples: &[
            Long {
                size: 4097,
                first: 0x07,
                places: 4094,
            },
            Long {
                size: 4096,
                first: 0x07,
                places: 4094,
            },
        ],
    },
    Group {
        about: "13 read fewer than three bytes, and three",
        examples: &[Tape(&[0x00, 0x07], 3), Tape(&[0x00, 0x07, 0xe0], 3)],
    },
    Group {
        about: "12 read no first box, and first box 0 or 15",
        examples: &[
            Tape(&[0x00, 0x00, 0xe0], 3),
            Tape(&[0x00, 0x01, 0xe0], 3),
            Tape(&[0x80, 0x00, 0xe0], 3),
        ],
    },
    Group {
        about: "13 read a Deliver of which 8 bits are there, and a whole one",
        examples: &[
            Tape(&[0x00, 0x07, 0x40], 3),
            Tape(&[0x00, 0x07, 0x40, 0x38], 3),
        ],
    },
    Group {
        about: "13 read a Stop with nothing behind it, an Advance with 2 bits behind it, and the same with the end mark",
        examples: &[
            Tape(&[0x00, 0x07, 0xa0], 3),
            Tape(&[0x00, 0x07, 0x20], 3),
            Tape(&[0x00, 0x07, 0xa0, 0xe0], 3),
            Tape(&[0x00, 0x07, 0x23, 0x80], 3),
        ],
    },
    Group {
        about: "13 read a long Ask of which 8 bits are there, one of which 52 are there behind two Advances, and a whole one",
        examples: &[
            Tape(&[0x00, 0x07, 0xc0], 3),
            Tape(
                &[0x00, 0x07, 0x20, 0x8c, 0x00, 0x40, 0x00, 0x00, 0x00, 0x00],
                3,
            ),
            Tape(
                &[0x00, 0x07, 0xc0, 0x04, 0x00, 0x00, 0x00, 0x00, 0x03, 0x80],
                3,
            ),
        ],
    },
    Group {
        about: "14 read a long Ask with its first eight notes alone, with none, and with the first of its last eight",
        examples: &[
            Tape(
                &[0x00, 0x07, 0xc0, 0x03, 0xfc, 0x00, 0x00, 0x00, 0x03, 0x80],
                3,
            ),
            Tape(
                &[0x00, 0x07, 0xc0, 0x00, 0x00, 0x00, 0x00, 0x00, 0x03, 0x80],
                3,
            ),
            Tape(
                &[0x00, 0x07, 0xc0, 0x04, 0x00, 0x00, 0x00, 0x00, 0x03, 0x80],
                3,
            ),
        ],
    },
    Group {
        about: "14 read device 24, device 31, and device 23",
        examples: &[
            Tape(&[0x00, 0x07, 0xb8, 0xe0], 3),
            Tape(&[0x00, 0x07, 0xbf, 0xe0], 3),
            Tape(&[0x00, 0x07, 0xb7, 0xe0], 3),
        ],
    },
    Group {
        about: "15 read a bit set after the end mark, the first or the last one, and none",
        examples: &[
            Tape(&[0x00, 0x07, 0xf0], 3),
            Tape(&[0x00, 0x07, 0xe1], 3),
            Tape(&[0x00, 0x07, 0xe0], 3),
        ],
    },
    Group {
        about: "15 read a further byte, and none",
        examples: &[
            Tape(&[0x00, 0x07, 0xe0, 0x00], 3),
            Tape(&[0x00, 0x07, 0xe0], 3),
        ],
    },
    Group {
        about: "16 read two steps into a row of one place, of two and of three",
        examples: &[
            Tape(&[0x00, 0x07, 0xa0, 0xa1, 0xe0], 1),
            Tape(&[0x00, 0x07, 0xa0, 0xa1, 0xe0], 2),
            Tape(&[0x00, 0x07, 0xa0, 0xa1, 0xe0], 3),
        ],
    },
    Group {
        about: "16 read 4093 steps into a row of one place less, and of as many",
        examples: &[
            Long {
                size: 4096,
                first: 0x07,
                places: 4092,
            },
            Long {
                size: 4096,
                first: 0x07,
                places: 4093,
            },
        ],
    },
    Group {
        about: "11 goes before 12 and 16, 13 under three bytes before 12, 12 before 13, 14 and 16",
        examples: &[
            Long {
                size: 4097,
                first: 0x00,
                places: 0,
            },
            Tape(&[0x00, 0x00], 3),
            Tape(&[0x00, 0x00, 0xa0], 3),
            Tape(&[0x00, 0x00, 0xb8], 3),
            Tape(&[0x00, 0x00, 0xa0, 0xe0], 0),
        ],
    },
    Group {
        about: "13 or 14 at the first step that has it: 14 then 13, 13 although its device would be over 23, and although its last eight notes would be absent",
        examples: &[
            Tape(&[0x00, 0x07, 0xb8], 3),
            Tape(&[0x00, 0x07, 0x40, 0x2e], 3),
            Tape(&[0x00, 0x07, 0xc0, 0x03, 0xfc, 0x00, 0x00, 0x00], 3),
        ],
    },
    Group {
        about: "13, 14 and 15 go before 16, 14 before 15",
        examples: &[
            Tape(&[0x00, 0x07, 0xa0, 0xa0], 0),
            Tape(&[0x00, 0x07, 0xb8, 0xe1], 0),
            Tape(&[0x00, 0x07, 0xa0, 0xe1], 0),
        ],
    },
];
