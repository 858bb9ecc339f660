// For tests: plays the tape on standard input from a run whose tablets are idle in the round that the first argument gives.
// No tape brings a fresh run to the last rounds. How that ended goes to the file that the second argument names, where there is one.
#![tactic(auto)]

use lines::Played;
use std::rt::Env;
use streams::Failure;

// The round that the first argument gives.
fn round(rt: &impl Env) -> Option<u16> {
    let number = streams::argument(rt, 1)?.decimal?;
    u16::try_from(number).ok()
}

fn play_from(rt: &(impl Input + Print + Eprint + Env)) -> Result<(), Failure> {
    let Some(round) = round(rt) else {
        streams::say(rt, "the first argument is a round, 0 to 65535");
        return Err(Failure::Failed);
    };
    lines::show_input(rt, &Played { from: Some(round) })
}

fn main(rt: HostRuntime) {
    let ended = play_from(&rt);
    streams::end_with(&rt, 2, ended);
}
