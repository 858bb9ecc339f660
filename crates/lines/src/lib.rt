// The lines that the programs print of a tape, played or listed.
#![tactic(auto)]

mod answers;
mod listed;
mod played;
mod refused;
mod shown;

pub use listed::Listed;
pub use played::Played;
pub use refused::say_refused;
pub use shown::{Form, show_input};
