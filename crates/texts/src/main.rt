// Tapes as text: `list` shows the tape on standard input as text, `write` writes the tape of the text on standard input.
// How that ended goes to the file that the second argument names, where there is one.
#![tactic(auto)]

use lines::Listed;
use std::rt::Env;
use streams::Failure;
use text_form::StepWords;

// The tape of first boxes and step words, written whole or not at all.
fn write_tape(rt: &(impl Print + Eprint), first: u16, words: &[u64]) -> Result<(), Failure> {
    let mut tape = [0u8; tape::MOST_BYTES];
    match tape::write_tape(first, words, &mut tape) {
        Ok(length) => Ok(streams::write_all(rt, &tape[..length])?),
        Err(refusal) => {
            lines::say_refused(rt, refusal);
            Err(Failure::Refused)
        }
    }
}

fn write_text(rt: &(impl Input + Print + Eprint)) -> Result<(), Failure> {
    let mut steps = StepWords::new();
    let first = text_form::read_text(rt, &mut steps)?;
    write_tape(rt, first, &steps)
}

fn run(rt: &(impl Input + Print + Eprint + Env)) -> Result<(), Failure> {
    match streams::argument(rt, 1) {
        Some(command) if command.is("list") => lines::show_input(rt, &Listed),
        Some(command) if command.is("write") => write_text(rt),
        _ => {
            streams::say(rt, "list or write, and where the status goes");
            Err(Failure::Failed)
        }
    }
}

fn main(rt: HostRuntime) {
    let ended = run(&rt);
    streams::end_with(&rt, 2, ended);
}
