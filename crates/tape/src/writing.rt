// The tape as it is written: first the words are measured, and only then laid into the buffer.
ghost use Rattle.std.specs.Prelude.{◌≡◌, ◌+◌, ◌*◌, ◌≤◌, ◌++◌, length};
ghost use Rattle.tape.specs.Bits.{bits, bits_of, overlaid};
ghost use Rattle.tape.specs.Edition.{edition_of, first_edition};
ghost use Rattle.tape.specs.Reading.{start};
ghost use Rattle.tape.specs.Writing.{measured, body, ending, steps_part, bytes_for, size};

use crate::bits::{put, put_word};
use crate::edition::Edition;

impl Edition {
    // The bits that some words take as steps; none where one of them is no step.
    // Counted up to 40,000: more bits than a tape has, and no sum of widths overflows.
    pub(crate) fn measure(self, words: &[u64]) -> Option<usize>
        ensures { result ≡ measured (edition_of self) words.now }
    {
        let mut total = 0;
        for &word in words {
            total = (total + self.step_width(word)?).min(40000);
        }
        Some(total)
    }

    // The bytes from the third on of a tape whose steps take so many bits.
    pub(crate) fn bytes_for(self, count: usize) -> usize
        requires { count ≤ 40000 }
        ensures { result ≡ bytes_for (edition_of self) count }
    {
        (self.start() + count + self.mark().width + 7) / 8
    }

    // The end mark at a bit, and zero bits to the byte's edge. Buffer and bit stand apart, as in `put`.
    fn put_end(self, buffer: &mut [u8], at: usize)
        requires { (at ≤ 65000) × (at + length (ending (edition_of self) at) ≤ 8 * length buffer.old) }
        ensures { bits_of buffer.new ≡ overlaid (bits_of buffer.old) at (ending (edition_of self) at) }
    {
        let mark = self.mark();
        let zeros = (8 - (at + mark.width) % 8) % 8;
        put(buffer, at, mark.width + zeros, mark.number << zeros);
    }

    // The steps and the end mark into a buffer, from where the steps begin. A word that is no step takes no bits.
    fn pack_steps(self, buffer: &mut [u8], words: &[u64])
        requires { (length (body (edition_of self) words.now) ≤ 40000) × (start (edition_of self) + length (steps_part (edition_of self) words.now) ≤ 8 * length buffer.old) }
        ensures { bits_of buffer.new ≡ overlaid (bits_of buffer.old) (start (edition_of self)) (steps_part (edition_of self) words.now) }
    {
        let mut at = self.start();
        for &word in words {
            let width = self.step_width(word).unwrap_or(0);
            put_word(buffer, at, width, word);
            at += width;
        }
        self.put_end(buffer, at);
    }
}

// A tape of the first edition: the first boxes, and the steps into the part behind these two bytes.
pub(crate) fn lay_tape(buffer: &mut [u8], first: u16, words: &[u64])
    requires { (length (body first_edition words.now) ≤ 40000) × (2 + size first_edition words.now ≤ length buffer.old) }
    ensures { bits_of buffer.new ≡ overlaid (bits_of buffer.old) 0 (bits 16 first ++ steps_part first_edition words.now) }
{
    put(buffer, 0, 16, u64::from(first));
    // 01 names this form: the part from the third byte on is lent on to the packer.
    Edition::First.pack_steps(&mut buffer[2..], words);
}
