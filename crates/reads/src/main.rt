// Reads the tape on standard input a thousand times and prints how many steps that gave: what tools/bench measures of the reader.
#![tactic(auto)]

use refusals::Refusal;
use std::io;
use tape::Recorded;

// How many steps a reading gave.
fn steps_in(read: Result<Recorded, Refusal>) -> u64 {
    read.map_or(0, |recorded| recorded.steps as u64)
}

fn read_often(tape: &[u8]) -> u64 {
    let mut row = [0u64; tape::MOST_STEPS];
    let mut steps: u64 = 0;
    for _ in 0..1000 {
        // No word of a row is all ones: the next reading waits for the row, so that none of them can be left out.
        let end = tape.len().saturating_sub((row[0] == u64::MAX) as usize);
        steps = steps.wrapping_add(steps_in(tape::read_tape(&tape[..end], &mut row)));
    }
    steps
}

fn main(rt: HostRuntime) -> io::Result<()> {
    // One byte more than a tape has at most, so that a longer one is refused by 11.
    let mut bytes = [0u8; tape::MOST_BYTES + 1];
    let n = streams::read_all(&rt, &mut bytes).unwrap_or_else(|failed| failed.length);
    let steps = read_often(&bytes[..n]);
    println!(rt; "{steps}")
}
