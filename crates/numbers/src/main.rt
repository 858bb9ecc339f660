// Examples of each number that a step, the start and the unplug question give, and beside each of them one that does not give it
// (01, "Numbers a caller gets back", 1 to 10 and 12). They stand on standard input, a line each: the words, which begin with the
// number that the line is about, and behind a colon the parts, divided by semicolons. A part is a name and its numbers, 0 where they
// are left out, in hexadecimal digits behind 0x. These give a state, each once, from a fresh run whose first boxes are 0, 1 and 2:
//
//     listed COUNT · change PLACE ADDED REMOVED · kept ADDED REMOVED · stopped DEVICES · device DEVICE ADDED REMOVED T
//     round TABLET ROUND, or asks TABLET ROUND ADDED REMOVED T ANSWERED · free SLOTS
//     request SLOT FROM TO ROUND T, or answer SLOT FROM TO ROUND T, or commit SLOT FROM TO
//
// so that 1, 2 and 9 are shown too, which no tape from a fresh start reaches; and the last part asks what is printed:
//
//     ask TABLET ADDED REMOVED · advance TABLET · deliver SLOT · lose SLOT · repeat SLOT · stop DEVICE · unplug BOX · start BOXES
#![tactic(auto)]

use given::{Given, Piece, Pieces};

mod shown;

fn say_words(rt: &impl Print, words: &[u8]) {
    // Where they cannot be printed, what is behind them is tried all the same.
    let _ = rt.write_all(words);
    shown::say(rt, ": ");
}

fn examples(rt: &impl Print, text: &[u8]) {
    let mut given = Given::default();
    for piece in Pieces::of(text) {
        match piece {
            Piece::Words(words) => {
                given = Given::default();
                say_words(rt, words);
            }
            Piece::Part(part) => {
                if !given.take(part) {
                    shown::show(rt, &given, part);
                }
            }
        }
    }
}

fn main(rt: HostRuntime) {
    let mut text = [0u8; 65536];
    let n = streams::read_all(&rt, &mut text).unwrap_or_else(|failed| failed.length);
    examples(&rt, &text[..n]);
}
