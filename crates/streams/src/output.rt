// Standard output, in blocks of 4,096 bytes: a full block is written out and begun anew, so nothing is left out and no line is too long.
ghost use Rattle.std.specs.Prelude.{◌≡◌, OnOk};
ghost use Rattle.arrayvec.specs.ArrayVec.{array_vec_len};

use crate::said::fail;
use arrayvec::ArrayVec;
use std::fmt;

// A write failed. Why was said where it did.
#[derive(Clone, Copy, Debug, PartialEq, Eq)]
pub struct WriteFailed;

impl From<WriteFailed> for fmt::Error {
    fn from(_: WriteFailed) -> fmt::Error {
        fmt::Error
    }
}

// Bytes on standard output, not collected. A failure is said at once, while its reason is known.
pub fn write_all(rt: &(impl Print + Eprint), bytes: &[u8]) -> Result<(), WriteFailed> {
    rt.write_all(bytes).map_err(|why| {
        fail(rt, "standard output", why);
        WriteFailed
    })
}

// Text on its way to standard output. A failed write is said there, and handed on as an `Err`, so that nothing more is written.
#[derive(Drop)]
pub struct Output<'a, R> {
    rt: &'a R,
    block: ArrayVec<u8, 4096>,
}

impl<'a, R: Print + Eprint> Output<'a, R> {
    pub fn new(rt: &'a R) -> Self {
        Output {
            rt,
            block: ArrayVec::new(),
        }
    }

    fn write_block(&mut self) -> Result<(), WriteFailed>
        ensures { OnOk result (array_vec_len self.new.block ≡ 0) }
    {
        write_all(self.rt, self.block.as_slice())?;
        self.block.clear();
        Ok(())
    }

    fn put(&mut self, byte: u8) -> Result<(), WriteFailed> {
        if self.block.is_full() {
            self.write_block()?;
        }
        self.block.push(byte);
        Ok(())
    }

    // Writes what is collected.
    pub fn end(mut self) -> Result<(), WriteFailed> {
        self.write_block()
    }
}

impl<R: Print + Eprint> fmt::Write for Output<'_, R> {
    // Byte by byte: a block may fill within a text.
    fn write_str(&mut self, text: &str) -> fmt::Result {
        for byte in text.bytes() {
            self.put(byte)?;
        }
        Ok(())
    }
}
