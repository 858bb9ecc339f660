// What a step, the start and the unplug question answer, behind the words of an example.
use devices::{Accepted, Step};
use given::{Given, Part, byte, pair, two_bytes};
use state::{Run, Stepped};
use std::fmt::Display;

// What a part asks.
#[derive(Clone, Copy)]
enum Asked {
    Step(Step),
    Start(u16),
    Unplug(u8),
}

impl Asked {
    // By the part's name. An Ask brings the tablet's lowest note.
    fn of(part: Part) -> Option<Self> {
        let [first, second, third, ..] = part.numbers;
        let number = byte(first);
        let step = match part.name {
            b"start" => return Some(Asked::Start(two_bytes(first))),
            b"unplug" => return Some(Asked::Unplug(number)),
            b"ask" => Step::Ask {
                tablet: number,
                notes: 1,
                pair: pair(second, third),
            },
            b"advance" => Step::Advance(number),
            b"deliver" => Step::Deliver(number),
            b"lose" => Step::Lose(number),
            b"repeat" => Step::Repeat(number),
            b"stop" => Step::Stop(number),
            _ => return None,
        };
        Some(Asked::Step(step))
    }
}

// A piece of a line. Where it cannot be printed, the next is tried all the same.
pub(crate) fn say(rt: &impl Print, piece: impl Display + Drop) {
    let _ = rt.print(piece);
}

// One step. A call of its own, so that its stack can be read off the program (tools/bench).
#[inline(never)]
fn taken(run: Run, step: Step) -> Stepped {
    parlour::step(run, step)
}

// An outcome's number and what it brings besides, and of a refusal whether it hands back the very state.
fn say_step(rt: &impl Print, given: &Given, step: Step) {
    let run = given.state();
    let stepped = taken(run, step);
    say(rt, devices::number_of(stepped.outcome));
    match stepped.outcome {
        Ok(Accepted::Done) => (),
        Ok(Accepted::Round(round)) => {
            say(rt, " R ");
            say(rt, round);
        }
        Ok(Accepted::Committed(_)) => say(rt, " C"),
        Ok(Accepted::Adopted(_)) => say(rt, " A"),
        Err(_) => {
            let same = stepped.run == run;
            say(
                rt,
                if same {
                    ", state as given"
                } else {
                    ", STATE CHANGED"
                },
            );
        }
    }
}

fn say_unplug(rt: &impl Print, given: &Given, number: u8) {
    match parlour::may_unplug(given.state(), number) {
        Ok(true) => say(rt, "0 yes"),
        Ok(false) => say(rt, "0 no"),
        Err(refusal) => say(rt, u8::from(refusal)),
    }
}

// Shows what a part asks of a state.
pub(crate) fn show(rt: &impl Print, given: &Given, part: Part) {
    match Asked::of(part) {
        Some(Asked::Step(step)) => say_step(rt, given, step),
        Some(Asked::Start(first)) => say(rt, devices::number_of(state::start(first).outcome)),
        Some(Asked::Unplug(number)) => say_unplug(rt, given, number),
        None => say(rt, "NO SUCH PART"),
    }
    say(rt, "\n");
}
