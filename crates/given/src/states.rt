// The state that the parts of an example give: a fresh run with what they name changed.
ghost use Rattle.std.specs.Prelude.{◌<◌, length};

use crate::text::Part;
use books::{Book, Config, Listed};
use devices::{Asking, Contents, Letter, Message, Notice, Phase, Tablet};
use state::{Run, Slot};
use std::array;

// The first boxes, as where nothing else is given: 0, 1 and 2.
const FIRST: u16 = 0x7;

const FRESH: Config = Config {
    added: FIRST,
    removed: 0,
};

// A value that is given, and its place among those of its kind, counted round.
#[derive(Clone, Copy)]
struct Placed<T> {
    place: usize,
    value: T,
}

impl<T> Placed<T> {
    // One that is given, as the parts of an example are kept.
    fn at(place: u64, value: T) -> Option<Self> {
        let place = place as usize;
        Some(Placed { place, value })
    }
}

fn put<T: Copy>(placed: Option<Placed<T>>, among: &mut [T])
    requires { 0 < length among.old }
{
    if let Some(Placed { place, value }) = placed {
        let place = place % among.len();
        among[place] = value;
    }
}

// What the parts of an example give of its state, each once.
#[derive(Clone, Copy, Default)]
pub struct Given {
    listed: usize,
    change: Option<Placed<Config>>,
    kept: Option<Book>,
    stopped: u32,
    device: Option<Placed<Contents>>,
    tablet: Option<Placed<Tablet>>,
    free: Option<usize>,
    slot: Option<Placed<Slot>>,
}

impl Given {
    // Takes what a part gives of a state, or says that it gives nothing of one.
    pub fn take(&mut self, part: Part) -> bool {
        let numbers = part.numbers;
        let [first, second, third, fourth, ..] = numbers;
        match part.name {
            b"listed" => self.listed = first as usize,
            b"change" => self.change = Placed::at(first, pair(second, third)),
            b"kept" => self.kept = Some(book(pair(first, second))),
            b"stopped" => self.stopped = (first % 0x100000000) as u32,
            b"device" => self.device = Placed::at(first, contents(pair(second, third), fourth)),
            b"round" => self.tablet = Placed::at(first, tablet(second, Phase::Idle)),
            b"asks" => self.tablet = Placed::at(first, tablet(second, asks(numbers))),
            b"free" => self.free = Some(first as usize),
            b"request" => self.slot = Placed::at(first, slot(Message::Request(letter(numbers)))),
            b"answer" => self.slot = Placed::at(first, slot(Message::Answer(letter(numbers)))),
            b"commit" => self.slot = Placed::at(first, slot(commit(second, third))),
            _ => return false,
        }
        true
    }

    pub fn state(&self) -> Run {
        let mut run = state::start(FIRST).run;
        run.stopped = self.stopped;
        run.kept = self.kept.unwrap_or(run.kept);
        run.listed = Listed {
            changes: changes(),
            count: self.listed,
        };
        put(self.change, &mut run.listed.changes);
        put(self.device, &mut run.devices);
        put(self.tablet, &mut run.tablets);
        if let Some(free) = self.free {
            for place in run.slots.iter_mut().skip(free) {
                *place = slot(commit(0, 0));
            }
        }
        put(self.slot, &mut run.slots);
        run
    }
}

// The last bits of a number, as many as a byte has. A function for each width: one over the width is no plainer, as `as` takes no parameter.
pub fn byte(number: u64) -> u8 {
    (number % 0x100) as u8
}

// As many as two bytes have.
pub fn two_bytes(number: u64) -> u16 {
    (number % 0x10000) as u16
}

pub fn pair(added: u64, removed: u64) -> Config {
    Config {
        added: two_bytes(added),
        removed: two_bytes(removed),
    }
}

// Six changes that all differ: change k adds box 8 + k.
fn changes() -> [Config; 6] {
    array::from_fn(|k| pair(0x100 << k, 0))
}

// A book with no notes.
fn book(config: Config) -> Book {
    Book {
        config,
        ..Book::none()
    }
}

fn contents(config: Config, t: u64) -> Contents {
    Contents {
        v: book(config),
        candidates: Book::none().notes,
        t: byte(t),
    }
}

fn tablet(round: u64, phase: Phase) -> Tablet {
    Tablet {
        round: two_bytes(round),
        phase,
    }
}

// Asking, with what it saved and the boxes that answered.
fn asks([_, _, added, removed, t, answered]: [u64; 6]) -> Phase {
    Phase::Asks(Asking {
        config: pair(added, removed),
        t: byte(t),
        candidates: Book::none().notes,
        answered: two_bytes(answered),
        floor: None,
    })
}

fn slot(message: Message) -> Slot {
    Slot { message }
}

// A request or an answer with what a fresh device has, and a set of changes.
fn letter([_, from, to, round, t, _]: [u64; 6]) -> Letter {
    Letter {
        from: byte(from),
        to: byte(to),
        round: two_bytes(round),
        contents: contents(FRESH, t),
    }
}

fn commit(from: u64, to: u64) -> Message {
    Message::Commit(Notice {
        from: byte(from),
        to: byte(to),
        book: Book::none(),
    })
}
