// What every program needs of the system: standard input and output, arguments as words, and how it ended. Every failure is seen and said.
#![tactic(auto)]

mod ended;
mod input;
mod output;
mod said;
mod words;

pub use ended::{Failure, end_with};
pub use input::{ReadFailed, read_all, read_some};
pub use output::{Output, WriteFailed, write_all};
pub use said::say;
pub use words::{Word, argument};
