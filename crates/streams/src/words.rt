// Words of a text or an argument, taken byte by byte: what a word says, and the number that it is.
ghost use Rattle.std.specs.Prelude.{◌≤◌, IfSome};

use std::rt::Env;

// A word: its first eight bytes, so that words of up to eight can be told apart; how many bytes it has; and the number that it is in
// decimal and in hexadecimal digits, if it is one. The bytes are no ArrayVec: the length goes past eight, and a word is Copy.
#[derive(Clone, Copy, Debug, PartialEq, Eq)]
pub struct Word {
    front: [u8; 8],
    length: usize,
    pub decimal: Option<u64>,
    pub hex: Option<u64>,
}

// A number with one digit more, up to 65,536 for all that is larger, which is over every bound.
fn with_digit(number: Option<u64>, base: u64, digit: Option<u32>) -> Option<u64>
    ensures { IfSome result (λ n. n ≤ 65536) }
{
    let shifted = number?.saturating_mul(base);
    Some(shifted.saturating_add(u64::from(digit?)).min(65536))
}

impl Word {
    // A word of no bytes.
    pub fn new() -> Self {
        Word {
            front: [0; 8],
            length: 0,
            decimal: Some(0),
            hex: Some(0),
        }
    }

    fn of(text: &[u8]) -> Self {
        text.iter()
            .fold(Word::new(), |word, byte| word.with_byte(*byte))
    }

    pub fn is_empty(self) -> bool {
        self.length == 0
    }

    // The word with one byte more.
    pub fn with_byte(mut self, byte: u8) -> Self {
        let length = self.length;
        if let Some(place) = self.front.get_mut(length) {
            *place = byte;
        }
        let character = char::from(byte);
        self.length = length.saturating_add(1);
        self.decimal = with_digit(self.decimal, 10, character.to_digit(10));
        self.hex = with_digit(self.hex, 16, character.to_digit(16));
        self
    }

    // Whether it is a text of up to eight bytes.
    pub fn is(self, text: &str) -> bool {
        self == Word::of(text.as_bytes())
    }
}

// Not derived: a word of no bytes has the numbers Some(0), not None.
impl Default for Word {
    fn default() -> Self {
        Word::new()
    }
}

// Argument i as a word, if it is there, is not empty, and is no longer than any that a program takes.
pub fn argument(rt: &impl Env, i: usize) -> Option<Word> {
    let mut text = [0u8; 16];
    match rt.arg(i, &mut text) {
        Ok(0) | Err(_) => None,
        Ok(n) => Some(Word::of(&text[..n])),
    }
}
