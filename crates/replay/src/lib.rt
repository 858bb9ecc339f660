// A recorded tape played: which step a word of the reader's row is, and that step taken.
#![tactic(auto)]

ghost use Rattle.std.specs.Prelude.{◌≡◌};
ghost use Rattle.replay.specs.Replay.{ask_of, of_fields, step_of, PlayPromise};
ghost use Rattle.replay.specs.Working.{Small};

use books::Config;
use devices::Step;
use refusals::Refusal;
use state::{Run, Stepped};
use tape::Fields;

// An Ask, short or long: a step has sixteen notes, of which the short one brings the first eight.
fn ask_of(f: Fields) -> Step
    requires { Small f }
    ensures { result ≡ ask_of f }
{
    Step::Ask {
        tablet: f.first as u8,
        notes: f.second as u16,
        pair: Config {
            added: f.third as u16,
            removed: f.fourth as u16,
        },
    }
}

// The step of a kind and its fields. The kind is a number, as the tape gives it: 01 names a match on it as the form.
fn of_fields(f: Fields) -> Option<Step>
    requires { Small f }
    ensures { result ≡ of_fields f }
{
    match f.kind {
        0 | 6 => Some(ask_of(f)),
        1 => Some(Step::Advance(f.first as u8)),
        2 => Some(Step::Deliver(f.first as u8)),
        3 => Some(Step::Lose(f.first as u8)),
        4 => Some(Step::Repeat(f.first as u8)),
        5 => Some(Step::Stop(f.first as u8)),
        _ => None,
    }
}

// The step that a word is, if it is one.
#[tactic(auto, using(crate::proofs::Words::fields_small), unfolding(crate::specs::Replay::step_of))]
pub fn decode(word: u64) -> Option<Step>
    ensures { result ≡ step_of word }
{
    if !tape::is_step(word) {
        return None;
    }
    of_fields(tape::fields_of(word))
}

// The step of a word taken; 14 for a word that is none.
#[tactic(auto, unfolding(crate::specs::Replay::played))]
pub fn play_word(run: Run, word: u64) -> Stepped
    ensures { PlayPromise word run result }
{
    match decode(word) {
        Some(step) => parlour::step(run, step),
        None => Stepped {
            outcome: Err(Refusal::NoStep),
            run,
        },
    }
}
