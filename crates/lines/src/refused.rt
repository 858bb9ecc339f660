// A refused tape on standard error: the number of the refusal, and its reason in words.
use refusals::Refusal;

// The reason alone, where there is one. No Display: a newtype and its impl are longer than this match, for one use.
fn reason(refusal: Refusal) -> &'static str {
    match refusal {
        Refusal::TapeTooLong => ": it is over 4,096 bytes",
        Refusal::NoFirstBox => ": it has no first box",
        Refusal::EndsTooSoon => ": it ends too soon",
        Refusal::NoStep => ": it has a step that is none",
        Refusal::BehindTheEnd => ": something stands behind its end",
        _ => "",
    }
}

// Piece by piece: where one cannot be written, the next is tried all the same.
pub fn say_refused(rt: &impl Eprint, refusal: Refusal) {
    let _ = rt.eprint("the tape is refused by ");
    let _ = rt.eprint(u8::from(refusal));
    let _ = rt.eprintln(reason(refusal));
}
