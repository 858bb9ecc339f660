// What one device keeps, the messages, merging, and what a step may do: an effect, which a rule gives and the run applies.
#![tactic(auto)]

ghost use Rattle.std.specs.Prelude.{◌≡◌};
ghost use Rattle.devices.specs.Contents.{merged};
ghost use Rattle.devices.specs.Effects.{number_of, kept_after, only, box_of, addressee, letter_to, addressed, is_empty, no_sending, unchanged, refuse};

use books::{Book, Config, Listed, Notes};
use refusals::Refusal;
use sets::Joins;

#[derive(Clone, Copy, PartialEq, Eq)]
pub struct Contents {
    pub v: Book,
    pub candidates: Notes,
    pub t: u8,
}

// What an asking tablet saved when its round began, the boxes that answered, and the floor, where it is set.
#[derive(Clone, Copy, PartialEq, Eq)]
pub struct Asking {
    pub config: Config,
    pub t: u8,
    pub candidates: Notes,
    pub answered: u16,
    pub floor: Option<Book>,
}

// No Option of what was saved: document 01 names "the tablet's own phase enum" as the form.
#[derive(Clone, Copy, PartialEq, Eq)]
pub enum Phase {
    Idle,
    Asks(Asking),
}

#[derive(Clone, Copy, PartialEq, Eq)]
pub struct Tablet {
    pub round: u16,
    pub phase: Phase,
}

#[derive(Clone, Copy, PartialEq, Eq)]
pub struct Letter {
    pub from: u8,
    pub to: u8,
    pub round: u16,
    pub contents: Contents,
}

#[derive(Clone, Copy, PartialEq, Eq)]
pub struct Notice {
    pub from: u8,
    pub to: u8,
    pub book: Book,
}

// What a slot holds. `Empty` is a case here: an Option around the other three takes 64 bytes and not 56, and a run, which is copied, grows by a tenth.
#[derive(Clone, Copy, PartialEq, Eq)]
pub enum Message {
    Empty,
    Request(Letter),
    Answer(Letter),
    Commit(Notice),
}

#[derive(Clone, Copy)]
pub enum Step {
    // Own notes as a set: the lowest of the tablet's sixteen has weight 1.
    Ask {
        tablet: u8,
        notes: u16,
        pair: Config,
    },
    Advance(u8),
    Deliver(u8),
    Lose(u8),
    Repeat(u8),
    Stop(u8),
}

// What an accepted step answers: done, a new round, or a book handed back.
#[derive(Clone, Copy)]
pub enum Accepted {
    Done,
    Round(u16),
    Committed(Book),
    Adopted(Book),
}

// What a step answers.
pub type Outcome = Result<Accepted, Refusal>;

// A message and the set of devices that it goes to, device d having weight 2^d.
#[derive(Clone, Copy)]
pub struct Sending {
    pub message: Message,
    pub to: u32,
}

// What a rule sees: the acting device's contents and tablet, the listed changes, how many slots are free, and whether it is stopped.
#[derive(Clone, Copy)]
pub struct Here {
    pub contents: Contents,
    pub tablet: Tablet,
    pub listed: Listed,
    pub free: usize,
    pub stopped: bool,
}

// What a step does: the parts anew, whether the named slot is freed and the acting device stopped, and what is sent.
#[derive(Clone, Copy)]
pub struct Effect {
    pub outcome: Outcome,
    pub contents: Contents,
    pub tablet: Tablet,
    pub listed: Listed,
    pub frees: bool,
    pub stops: bool,
    pub sending: Sending,
}

// The number that the table of numbers gives an outcome: what a caller is told (01, "Where an answer is an enum, a definition gives this paper's number").
// app and tape_numbers write the expression out again: it is shorter than a generic function with its contract.
pub fn number_of(outcome: Outcome) -> u8
    ensures { result ≡ number_of outcome }
{
    outcome.err().map_or(0, u8::from)
}

// What the join of all books handed back becomes by an outcome.
pub fn kept_after(outcome: Outcome, kept: Book) -> Book
    ensures { result ≡ kept_after outcome kept }
{
    match outcome {
        Ok(Accepted::Committed(book) | Accepted::Adopted(book)) => kept.join(book),
        _ => kept,
    }
}

impl Contents {
    // Merging, lines 18 to 20 of Figure 2.
    #[tactic(auto, unfolding(crate::specs::Contents::merged))]
    pub fn merge(self, listed: Listed, theirs: Contents) -> Contents
        ensures { result ≡ merged listed self theirs }
    {
        let v = self.v.join(theirs.v);
        Contents {
            v,
            candidates: self.candidates.join(theirs.candidates),
            t: listed.outside(v.config, self.t.join(theirs.t)),
        }
    }
}

impl Letter {
    // The same letter to a device.
    fn addressed_to(self, device: u8) -> Letter
        ensures { result ≡ letter_to self device }
    {
        Letter { to: device, ..self }
    }
}

impl Message {
    pub fn is_empty(self) -> bool
        ensures { result ≡ is_empty self }
    {
        matches!(self, Message::Empty)
    }

    // Whom a message goes to; 0 for no message, as the definition says.
    pub fn addressee(self) -> u8
        ensures { result ≡ addressee self }
    {
        match self {
            Message::Empty => 0,
            Message::Request(letter) | Message::Answer(letter) => letter.to,
            Message::Commit(notice) => notice.to,
        }
    }

    // The same message to a device.
    pub fn addressed_to(self, device: u8) -> Message
        ensures { result ≡ addressed self device }
    {
        match self {
            Message::Empty => Message::Empty,
            Message::Request(letter) => Message::Request(letter.addressed_to(device)),
            Message::Answer(letter) => Message::Answer(letter.addressed_to(device)),
            Message::Commit(notice) => Message::Commit(Notice {
                to: device,
                ..notice
            }),
        }
    }
}

// The set of one device. It, `box_of` and `only_change` of rules differ in type and offset, and no bound says what `<<` gives.
pub fn only_device(device: u8) -> u32
    ensures { result ≡ only device }
{
    if device < 24 { 1 << device } else { 0 }
}

// The set of the one box that a device is.
pub fn box_of(device: u8) -> u16
    ensures { result ≡ box_of device }
{
    match device {
        8..24 => 1 << (device - 8),
        _ => 0,
    }
}

impl Sending {
    // Nothing is sent.
    pub fn none() -> Sending
        ensures { result ≡ no_sending }
    {
        Sending {
            message: Message::Empty,
            to: 0,
        }
    }
}

impl Here {
    // The parts as they came, with an outcome: nothing is freed, stopped or sent.
    pub fn unchanged(self, outcome: Outcome) -> Effect
        ensures { result ≡ unchanged outcome self }
    {
        Effect {
            outcome,
            contents: self.contents,
            tablet: self.tablet,
            listed: self.listed,
            frees: false,
            stops: false,
            sending: Sending::none(),
        }
    }

    // A refusal: the parts as they came.
    #[tactic(auto, unfolding(crate::specs::Effects::refuse))]
    pub fn refused(self, refusal: Refusal) -> Effect
        ensures { result ≡ refuse refusal self }
    {
        self.unchanged(Err(refusal))
    }
}
