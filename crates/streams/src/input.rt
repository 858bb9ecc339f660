// Standard input. A read that fails is told apart from the input's end, and is said at once, while its reason is known.
ghost use Rattle.std.specs.Prelude.{IfErr, IfOk};
ghost use Rattle.streams.specs.Counts.{IsPrefixLen};

use crate::said::fail;
use std::io;
use std::io::Read;

// A read failed: how many bytes stood at the front of the buffer before it.
#[derive(Clone, Copy, Debug, PartialEq, Eq)]
pub struct ReadFailed {
    pub length: usize,
}

// One read, and how many bytes it brought to the front of the buffer: none at the input's end.
pub fn read_some(rt: &(impl io::Input + Eprint), buffer: &mut [u8]) -> Result<usize, ReadFailed>
    ensures read { IfOk result (λ n. IsPrefixLen n buffer.new) }
    ensures failed { IfErr result (λ e. IsPrefixLen e.length buffer.new) }
{
    rt.reader().read(buffer).map_err(|why| {
        fail(rt, "standard input", why);
        ReadFailed { length: 0 }
    })
}

// Reads until the buffer is full or the input ends, and how many bytes that brought to its front.
pub fn read_all(rt: &(impl io::Input + Eprint), buffer: &mut [u8]) -> Result<usize, ReadFailed>
    ensures read { IfOk result (λ n. IsPrefixLen n buffer.new) }
    ensures failed { IfErr result (λ e. IsPrefixLen e.length buffer.new) }
{
    let mut length = 0;
    // No `for`: a read brings as many bytes as it likes.
    while length < buffer.len() {
        match read_some(rt, &mut buffer[length..]) {
            Ok(0) => return Ok(length),
            Ok(more) => length += more,
            Err(_) => return Err(ReadFailed { length }),
        }
    }
    Ok(length)
}
