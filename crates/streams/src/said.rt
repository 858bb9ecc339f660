// What is said on standard error.
use std::fmt::Display;
use std::io;

// A line on standard error.
pub fn say(rt: &impl Eprint, line: impl Display + Drop) {
    // Where that cannot be written, nothing is left to say it by.
    let _ = rt.eprintln(line);
}

// What failed, and why.
pub(crate) fn fail(rt: &impl Eprint, what: &str, why: io::Error) {
    say(rt, format_args!("{what}: {why}"));
}
