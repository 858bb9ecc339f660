// The state of one run: what it keeps, its start, and whether a state is one.
#![tactic(auto)]

ghost use Rattle.std.specs.Prelude.{◌≡◌, not, ◌<◌, ◌≤◌};
ghost use Rattle.sets.specs.Bounded.{each};
ghost use Rattle.books.specs.Books.{same_config};
ghost use Rattle.books.specs.Queried.{change_at};
ghost use Rattle.state.specs.State.{fresh, StartPromise, names_listed, all_different, proper_phase, proper_tablet, proper_letter, proper_up_to, proper_desk, is_box};

use books::{Book, Config, Listed, Notes};
use devices::{Accepted, Contents, Letter, Message, Outcome, Phase, Tablet};
use refusals::Refusal;

#[derive(Clone, Copy, PartialEq, Eq)]
pub struct Slot {
    pub message: Message,
}

// The run keeps the first boxes too: they are never changed.
#[derive(Clone, Copy, PartialEq, Eq)]
pub struct Run {
    pub devices: [Contents; 24],
    pub tablets: [Tablet; 8],
    pub slots: [Slot; 128],
    pub listed: Listed,
    pub stopped: u32,
    pub kept: Book,
    pub first: u16,
}

// A run, and what the step that led to it answers.
#[derive(Clone, Copy)]
pub struct Stepped {
    pub outcome: Outcome,
    pub run: Run,
}

#[tactic(auto, unfolding(crate::specs::State::fresh))]
fn fresh_run(first: u16) -> Run
    ensures { result ≡ fresh first }
{
    let contents = Contents {
        v: Book {
            config: Config {
                added: first,
                removed: 0,
            },
            ..Book::none()
        },
        candidates: Notes::default(),
        t: 0,
    };
    let tablet = Tablet {
        round: 0,
        phase: Phase::Idle,
    };
    Run {
        devices: [contents; 24],
        tablets: [tablet; 8],
        slots: [Slot {
            message: Message::Empty,
        }; 128],
        listed: Listed::default(),
        stopped: 0,
        kept: contents.v,
        first,
    }
}

// A run with these first boxes: 12 where there are none.
#[tactic(auto, unfolding(crate::specs::State::started))]
pub fn start(first: u16) -> Stepped
    ensures { StartPromise first result }
{
    let run = fresh_run(first);
    if first == 0 {
        return Stepped {
            outcome: Err(Refusal::NoFirstBox),
            run,
        };
    }
    Stepped {
        outcome: Ok(Accepted::Done),
        run,
    }
}

// Whether a set names none but the n listed changes. A set has eight bits.
fn names_listed(n: usize, t: u8) -> bool
    ensures { result ≡ names_listed n t }
{
    8 <= n || (t >> n) == 0
}

// Whether a listed change differs from those before it.
fn differs(listed: Listed, later: usize) -> bool
    requires { later < 6 }
    ensures { result ≡ each later (λ earlier. not (same_config (change_at listed earlier) (change_at listed later))) }
{
    let change = listed.changes[later];
    listed.changes[..later]
        .iter()
        .all(|earlier| *earlier != change)
}

// Whether all listed changes differ.
fn all_differ(listed: Listed) -> bool
    requires { listed.count ≤ 6 }
    ensures { result ≡ all_different listed }
{
    (0..listed.count).all(|later| differs(listed, later))
}

fn proper_phase(n: usize, phase: Phase) -> bool
    ensures { result ≡ proper_phase n phase }
{
    match phase {
        Phase::Idle => true,
        Phase::Asks(a) => names_listed(n, a.t),
    }
}

fn proper_tablet(n: usize, tablet: Tablet) -> bool
    ensures { result ≡ proper_tablet n tablet }
{
    (tablet.round <= 1023) & proper_phase(n, tablet.phase)
}

// Whether everything but the slots is proper.
#[tactic(auto, unfolding(crate::specs::State::proper_desk))]
pub fn proper_desk(listed: Listed, devices: [Contents; 24], tablets: [Tablet; 8]) -> bool
    ensures { result ≡ proper_desk listed devices tablets }
{
    let n = listed.count;
    if 6 < n {
        return false;
    }
    all_differ(listed)
        & devices.iter().all(|contents| names_listed(n, contents.t))
        & tablets.iter().all(|tablet| proper_tablet(n, *tablet))
}

fn is_box(d: u8) -> bool
    ensures { result ≡ is_box d }
{
    8 <= d && d < 24
}

fn proper_letter(n: usize, l: Letter) -> bool
    ensures { result ≡ proper_letter n l }
{
    l.round <= 1023 && names_listed(n, l.contents.t)
}

// Whether a message is proper where n changes are listed; of more than six no message is asked.
pub fn proper_message(n: usize, m: Message) -> bool
    ensures { result ≡ proper_up_to n m }
{
    if 6 < n {
        return false;
    }
    match m {
        Message::Empty => true,
        Message::Request(l) => l.from < 8 && is_box(l.to) && proper_letter(n, l),
        Message::Answer(l) => is_box(l.from) && l.to < 8 && proper_letter(n, l),
        Message::Commit(c) => c.from < 8 && c.to < 24,
    }
}
