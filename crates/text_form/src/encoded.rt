// A step's fields as the word of the tape.
ghost use Rattle.text_form.specs.Encoding.{ReadAs};

use tape::Fields;

// The fields at their places, most significant bit first (01, "The tape"). The kind is a number, as `tape::fields_of` gives it.
// The layout stands here a second time, as the tape gives no encoder; the contract of `encode`, ReadAs, lets no wrong place through.
fn placed(f: Fields) -> u64 {
    let fields = match f.kind {
        0 => (f.first << 58) | (f.second << 50) | (f.third << 34) | (f.fourth << 18),
        1 => f.first << 58,
        5 => f.first << 56,
        6 => (f.first << 58) | (f.second << 42) | (f.third << 26) | (f.fourth << 10),
        _ => f.first << 54,
    };
    (f.kind << 61) | fields
}

// A word is given only where the tape reads it as these very fields, so no line is written as another step.
pub(crate) fn encode(fields: Fields) -> Option<u64>
    ensures { ReadAs result fields }
{
    let word = placed(fields);
    if tape::fields_of(word) == fields {
        Some(word)
    } else {
        None
    }
}
