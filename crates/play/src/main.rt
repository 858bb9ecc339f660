// Plays the tape on standard input and prints what each step answers (01, "The tape").
// How that ended goes to the file that the first argument names, where there is one.
#![tactic(auto)]

use lines::Played;

fn main(rt: HostRuntime) {
    let ended = lines::show_input(&rt, &Played { from: None });
    streams::end_with(&rt, 1, ended);
}
