// First boxes and words are written into a buffer, and what comes back is printed. Each byte of the buffer holds 55 before and is
// shown after: a refusal leaves it, and a tape leaves the bytes beyond it.
ghost use Rattle.std.specs.Prelude.{◌≤◌, length};

use crate::said::{Bytes, Example, lent, say};

// What is written, and how many bytes of a buffer are lent for it.
#[derive(Clone, Copy)]
pub(crate) enum Writing {
    // First boxes and a word, into a buffer of ten, all of which a long Ask takes.
    Word(u16, u64, usize),
    // So many words: Stop of device 0 in each, and this as the last one. Into a buffer of 4,097.
    Long {
        count: usize,
        last: u64,
        size: usize,
    },
}

impl Example for Writing {
    fn show(&self, rt: &impl Print) {
        match *self {
            Writing::Word(first, word, size) => write(rt, first, word, size),
            Writing::Long { count, last, size } => write_long(rt, count, last, size),
        }
    }
}

fn write(rt: &impl Print, first: u16, word: u64, size: usize) {
    say(rt, "  ");
    say(rt, format_args!("{first:04x}"));
    say(rt, " ");
    say(rt, format_args!("{word:016x}"));
    write_into(rt, first, &[word], &mut [0x55; 10], size);
}

fn write_long(rt: &impl Print, count: usize, last: u64, size: usize) {
    say(rt, "  ");
    say(rt, count);
    say(rt, " words with last ");
    say(rt, format_args!("{last:016x}"));
    let mut row = [0xa000000000000000; 4094];
    let count = lent(count, &row);
    let words = &mut row[..count];
    if let [.., word] = words {
        *word = last;
    }
    write_into(rt, 0x0007, words, &mut [0x55; 4097], size);
}

fn say_count(rt: &impl Print, count: usize) {
    say(rt, "0 bytes ");
    say(rt, count);
}

// Writes words into the first bytes of a buffer, of which the first five and the last five are shown.
fn write_into(rt: &impl Print, first: u16, words: &[u64], buffer: &mut [u8], size: usize)
    requires { 10 ≤ length buffer.old }
{
    let size = lent(size, buffer);
    say(rt, " into ");
    say(rt, size);
    say(rt, " bytes: ");
    match tape::write_tape(first, words, &mut buffer[..size]) {
        Ok(count) => say_count(rt, count),
        Err(refusal) => say(rt, u8::from(refusal)),
    }
    let shown = &buffer[..];
    let front = Bytes(&shown[2..5]);
    let back = Bytes(&shown[shown.len() - 5..]);
    say(rt, ", buffer ");
    say(rt, Bytes(&shown[..2]));
    say(rt, format_args!("{front}{back}"));
    say(rt, "\n");
}
