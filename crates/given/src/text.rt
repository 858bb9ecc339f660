// The text of the examples: pieces, each the words of an example or a part with a name and its numbers.
ghost use Rattle.std.specs.Prelude.{◌-◌, ◌≤◌, length};
ghost use Rattle.std.specs.Iterator.{at_most};

#[derive(Clone, Copy)]
pub enum Piece<'a> {
    // What begins an example.
    Words(&'a [u8]),
    Part(Part<'a>),
}

// A part of an example: its name and the numbers behind it, 0 for those not given.
#[derive(Clone, Copy)]
pub struct Part<'a> {
    pub name: &'a [u8],
    pub numbers: [u64; 6],
}

// The pieces of the text that is left.
#[derive(Clone, Copy)]
pub struct Pieces<'a> {
    text: &'a [u8],
}

impl<'a> Pieces<'a> {
    pub fn of(text: &'a [u8]) -> Self {
        Pieces { text }
    }
}

impl<'a> Iterator for Pieces<'a> {
    type Item = Piece<'a>;

    ghost remaining = { λ pieces. at_most (length pieces.text.now) };

    // Words begin with a digit.
    fn next(&mut self) -> Option<Piece<'a>> {
        if *self.text.first()? <= b'9' {
            let (words, rest) = token(self.text, b':');
            self.text = behind(rest);
            return Some(Piece::Words(words));
        }
        let (part, rest) = Part::at_front(self.text);
        self.text = behind(rest);
        Some(Piece::Part(part))
    }
}

impl<'a> Part<'a> {
    // The part at the front of a text, each of its numbers behind a space, and the text behind it.
    fn at_front(text: &'a [u8]) -> (Self, &'a [u8])
        ensures { length result.1.now ≤ length text.now }
    {
        let (name, mut rest) = token(text, b' ');
        let mut numbers = [0; 6];
        for place in &mut numbers {
            let [b' ', digits @ ..] = rest else { break };
            let (digits, next) = token(digits, b' ');
            *place = number(digits);
            rest = next;
        }
        let name = name_of(name);
        (Part { name, numbers }, rest)
    }
}

// What stands before the byte `stop`, a `;` or the end of the line, and the text from there on. Each function that gives a rest says how
// long it is at most, each of a text of its own: by that the pieces end.
fn token(text: &[u8], stop: u8) -> (&[u8], &[u8])
    ensures { length result.1.now ≤ length text.now }
{
    let end = text
        .iter()
        .position(|byte| [stop, b';', b'\n'].contains(byte));
    text.split_at(end.unwrap_or(text.len()))
}

// The next piece: behind the line's end, or behind a `:` or `;` and its space.
fn behind(text: &[u8]) -> &[u8]
    ensures { length result.now ≤ length text.now - 1 }
{
    match text {
        [b'\n', next @ ..] | [_, _, next @ ..] => next,
        _ => &[],
    }
}

// A name is its last eight letters, and zeros before them are none.
fn name_of(letters: &[u8]) -> &[u8] {
    let last = &letters[letters.len().saturating_sub(8)..];
    let first = last.iter().position(|letter| *letter != 0);
    &last[first.unwrap_or(last.len())..]
}

// No `to_digit`: it takes A to F too, which count 0 here.
fn digit(byte: u8) -> u64 {
    match byte {
        b'0'..=b'9' => u64::from(byte - b'0'),
        b'a'..=b'f' => u64::from(byte - b'a') + 10,
        _ => 0,
    }
}

// In hexadecimal digits where there is an `x` among them.
fn number(digits: &[u8]) -> u64 {
    let base = if digits.contains(&b'x') { 16 } else { 10 };
    digits.iter().fold(0, |number: u64, byte| {
        number.wrapping_mul(base).wrapping_add(digit(*byte))
    })
}
