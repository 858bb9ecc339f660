// The tape as it is read: first a pass that finds what is wrong with it, and only then a pass that fills the row.
ghost use Rattle.std.specs.Prelude.{◌≡◌, ◌*◌, ◌≤◌, Ok, length, take, drop};
ghost use Rattle.tape.specs.Bits.{num, bits, bits_of};
ghost use Rattle.tape.specs.Edition.{edition_of};
ghost use Rattle.tape.specs.Reading.{end_at, end_or, read_at, start, read_steps, read_in, head_of, boxes_in, words_of};
ghost use Rattle.tape.specs.Promises.{counted, ended_at, recorded_as, held_by};
ghost use Rattle.tape.specs.declared.TheConstants.{MOST_BYTES};

use crate::bits::{ahead, eight_at, field, top};
use crate::edition::Edition;
use crate::{MOST_BYTES, Recorded};
use refusals::Refusal;

// "Each reading ends as a step with the next bit position, or as a refusal, or as the end of the tape": 01 names this form.
#[derive(Clone, Copy)]
pub(crate) enum Reading {
    Step(u64, usize),
    Refused(Refusal),
    End,
}

impl Reading {
    // How many steps there were where a reading is no step, or its refusal.
    fn ended(self, steps: usize) -> Result<usize, Refusal>
        ensures { result ≡ ended_at self steps }
    {
        match self {
            Reading::Refused(refusal) => Err(refusal),
            Reading::Step(_, _) | Reading::End => Ok(steps),
        }
    }
}

// Behind the end mark, which takes the first bits of a word: zero bits to the byte's edge, so many being left.
fn tail(word: u64, mark: usize, left: usize) -> Reading
    requires { mark ≤ 6 }
    ensures { result ≡ end_at (take left (drop mark (bits 64 word))) 0 }
{
    if 8 <= left {
        return Reading::Refused(Refusal::BehindTheEnd);
    }
    if field(word, mark, left) == 0 {
        Reading::End
    } else {
        Reading::Refused(Refusal::BehindTheEnd)
    }
}

// The part of a tape from the third byte on, behind a whole head: it holds the steps.
#[derive(Clone, Copy)]
pub(crate) struct Part<'a> {
    pub(crate) edition: Edition,
    pub(crate) bytes: &'a [u8],
    ghost short: { length bytes.now ≤ MOST_BYTES },
    ghost begun: { start (edition_of edition) ≤ 8 * length bytes.now },
}

impl Part<'_> {
    // What stands at a bit. A step is looked for first: none of any edition begins with the end mark.
    fn read_step(self, at: usize) -> Reading
        requires { at ≤ 8 * length self.bytes.now }
        ensures { result ≡ read_at (edition_of self.entry.edition) (bits_of self.entry.bytes.now) at }
    {
        let left = 8 * self.bytes.len() - at;
        let window = ahead(self.bytes, at);
        if left < 3 {
            return Reading::Refused(Refusal::EndsTooSoon);
        }
        let kind = field(window, 0, 3);
        let Some(layout) = self.edition.layout(kind) else {
            return self.edition.end_or(kind, window, left, Refusal::NoStep);
        };
        if left < layout.width {
            return self
                .edition
                .end_or(kind, window, left, Refusal::EndsTooSoon);
        }
        let word = top(window, layout.width);
        if layout.allows(word) {
            return Reading::Step(word, at + layout.width);
        }
        self.edition.end_or(kind, window, left, Refusal::NoStep)
    }

    // How many steps it has, or what is wrong with it. 01 names the form of the loop: the enum is taken apart by let .. else.
    fn count_steps(self) -> Result<usize, Refusal>
        ensures { result ≡ counted 0 (read_steps (edition_of self.entry.edition) (bits_of self.entry.bytes.now)) }
    {
        let mut at = self.edition.start();
        let mut steps = 0;
        loop {
            let reading = self.read_step(at);
            let Reading::Step(_, next) = reading else {
                return reading.ended(steps);
            };
            at = next;
            steps += 1;
        }
    }

    // Its step words into a row that is long enough.
    pub(crate) fn fill_row(self, row: &mut [u64])
        requires good { read_steps (edition_of self.edition) (bits_of self.bytes.now) ≡ Ok (words_of (read_steps (edition_of self.edition) (bits_of self.bytes.now))) }
        requires room { length (words_of (read_steps (edition_of self.edition) (bits_of self.bytes.now))) ≤ length row.old }
        ensures { row.new ≡ held_by row.old (read_steps (edition_of self.entry.edition) (bits_of self.entry.bytes.now)) }
    {
        let mut at = self.edition.start();
        for place in row.iter_mut() {
            let Reading::Step(word, next) = self.read_step(at) else {
                return;
            };
            *place = word;
            at = next;
        }
    }
}

impl Edition {
    // What stands where no step of a kind is, a word having so many bits from there on: the end, by the end mark, or else this refusal.
    fn end_or(self, kind: u64, word: u64, left: usize, refusal: Refusal) -> Reading
        requires { kind ≡ num (take 3 (bits 64 word)) }
        ensures { result ≡ end_or (edition_of self) word left refusal }
    {
        let mark = self.mark();
        if kind != mark.kind || left < mark.width || field(word, 3, mark.width - 3) != mark.rest {
            return Reading::Refused(refusal);
        }
        tail(word, mark.width, left - mark.width)
    }

    // The set of first boxes of a tape that has one.
    fn first_boxes(self, tape: &[u8]) -> u16
        requires { (edition_of self).head ≤ 8 * length tape.now }
        ensures { result ≡ boxes_in (edition_of self) tape.now }
    {
        let from = self.head().boxes;
        field(eight_at(tape, from / 8), from % 8, 16) as u16
    }

    // The first boxes, or what is wrong with a tape before its steps.
    fn head_of(self, tape: &[u8]) -> Result<u16, Refusal>
        ensures { result ≡ head_of (edition_of self) tape.now }
    {
        if MOST_BYTES < tape.len() {
            return Err(Refusal::TapeTooLong);
        }
        if tape.len() < self.head().width / 8 + 1 {
            return Err(Refusal::EndsTooSoon);
        }
        let first = self.first_boxes(tape);
        if first == 0 {
            return Err(Refusal::NoFirstBox);
        }
        Ok(first)
    }

    // What a tape holds, or what is wrong with it.
    pub(crate) fn check(self, tape: &[u8]) -> Result<Recorded, Refusal>
        ensures { result ≡ recorded_as (boxes_in (edition_of self) tape.now) (read_in (edition_of self) tape.now) }
    {
        let first = self.head_of(tape)?;
        // 01 names this form: the tape from the third byte on goes to the reader of the steps.
        let part = Part {
            edition: self,
            bytes: &tape[2..],
        };
        let steps = part.count_steps()?;
        Ok(Recorded { first, steps })
    }
}
