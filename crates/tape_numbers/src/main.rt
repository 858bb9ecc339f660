// Examples of each number that reading and writing a tape give, and beside each of them one that does not give it
// (01, "Numbers a caller gets back", 11 to 16). Each group begins with the number that it is about. The bytes of a tape, its first
// boxes and the words are in hexadecimal digits.
#![tactic(auto)]

mod reading;
mod reads;
mod said;
mod writes;
mod writing;

fn main(rt: HostRuntime) {
    said::show_all(&rt, &reading::READINGS);
    said::show_all(&rt, &writing::WRITINGS);
}
