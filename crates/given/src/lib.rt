// The examples of the program numbers: their text, and the state that the parts of one give.
#![tactic(auto)]

mod states;
mod text;

pub use states::{Given, byte, pair, two_bytes};
pub use text::{Part, Piece, Pieces};
