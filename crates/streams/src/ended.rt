// How a program ended. It writes that as a number to a file that an argument names.
ghost use Rattle.std.specs.Prelude.{◌≡◌};
ghost use Rattle.streams.specs.declared.ended.Failure.TheVariants.{Failed};

use crate::input::ReadFailed;
use crate::output::WriteFailed;
use crate::said::fail;
use std::env::FillError;
use std::io::Write;
use std::rt::{Env, Files};
use std::{fmt, fs, io, str};

// Why a program did not do what it was asked.
#[derive(Clone, Copy, Debug, PartialEq, Eq)]
pub enum Failure {
    // The tape or the text is refused.
    Refused,
    // Something could not be read or written.
    Failed,
}

// One impl for each type that `?` meets: one for all types would overlap with `From<Failure>`.

impl From<ReadFailed> for Failure {
    ghost from_gives = { λ _ failure. failure ≡ Failed };

    fn from(_: ReadFailed) -> Failure {
        Failure::Failed
    }
}

impl From<WriteFailed> for Failure {
    ghost from_gives = { λ _ failure. failure ≡ Failed };

    fn from(_: WriteFailed) -> Failure {
        Failure::Failed
    }
}

impl From<fmt::Error> for Failure {
    ghost from_gives = { λ _ failure. failure ≡ Failed };

    fn from(_: fmt::Error) -> Failure {
        Failure::Failed
    }
}

// The file that a path names, made or emptied.
fn create<R: Files>(rt: &R, path: &[u8]) -> io::Result<R::File> {
    match str::from_utf8(path) {
        Ok(name) => fs::create(rt, name),
        Err(_) => Err(io::Error::from(io::ErrorKind::InvalidFilename)),
    }
}

fn write_to(rt: &impl Files, path: &[u8], status: &[u8]) -> io::Result<()> {
    let mut file = create(rt, path)?;
    file.write_all(status)
}

fn write_status(rt: &(impl Env + Files), argument: usize, status: &[u8]) -> io::Result<()> {
    let mut path = [0u8; 4096];
    match rt.arg(argument, &mut path) {
        Err(FillError::NotPresent) => Ok(()),
        Err(FillError::TooLong) => Err(io::Error::from(io::ErrorKind::InvalidFilename)),
        Ok(n) => write_to(rt, &path[..n], status),
    }
}

// Writes 1 where something is refused and 2 where it could not be read or written, if there is such an argument.
pub fn end_with(rt: &(impl Env + Files + Eprint), argument: usize, ended: Result<(), Failure>) {
    let status = match ended {
        Ok(()) => return,
        Err(Failure::Refused) => b"1",
        Err(Failure::Failed) => b"2",
    };
    if let Err(why) = write_status(rt, argument, status) {
        fail(rt, "the status file", why);
    }
}
