// Fields cut from words and bytes, and set in them, most significant bit first. 01 names this form: shifts and masks.
ghost use Rattle.std.specs.Prelude.{◌≡◌, ◌+◌, ◌*◌, ◌/◌, ◌%◌, ◌^◌, ◌≤◌, ◌<◌, length, get_or, take, set};
ghost use Rattle.tape.specs.Bits.{num, bits, bits_of, field_at, word, window, Ahead, overlaid};

// The field of a word from its bit `from` on, the top bit being 0; 0 for a field that does not lie in the word.
pub(crate) fn field(word: u64, from: usize, width: usize) -> u64
    ensures { result ≡ field_at word from width }
{
    if width == 0 || 64 < from.saturating_add(width) {
        return 0;
    }
    (word << from) >> (64 - width)
}

// The first bits of a word, so many, and zeros below.
pub(crate) fn top(whole: u64, width: usize) -> u64
    requires { (1 ≤ width) × (width ≤ 64) }
    ensures { result ≡ word (take width (bits 64 whole)) }
{
    (whole >> (64 - width)) << (64 - width)
}

// The byte at a place, and 0 behind the end.
fn byte_at(bytes: &[u8], place: usize) -> u64
    ensures { (result ≡ get_or bytes.now place 0) × (result < 256) }
{
    bytes.get(place).map_or(0, |&byte| u64::from(byte))
}

// So many bytes from a place on as one number, zeros behind the end, which no iterator over the bytes gives.
fn bytes_at(bytes: &[u8], from: usize, count: usize) -> u64
    requires { (count ≤ 8) × (from ≤ 8192) }
    ensures { result ≡ num (window count bytes.now from) }
{
    let mut number = 0;
    for k in 0..count {
        number = (number << 8) | byte_at(bytes, from + k);
    }
    number
}

// The eight bytes from a place on, zeros behind the end: with no test at each byte they are one load.
pub(crate) fn eight_at(bytes: &[u8], from: usize) -> u64
    requires { from ≤ 8192 }
    ensures { result ≡ num (window 8 bytes.now from) }
{
    if from + 8 <= bytes.len()
        && let Some(eight) = bytes[from..from + 8].first_chunk()
    {
        return u64::from_be_bytes(*eight);
    }
    bytes_at(bytes, from, 8)
}

// The bits from a bit on at the top of a word: as many as there are, up to 57.
pub(crate) fn ahead(bytes: &[u8], at: usize) -> u64
    requires { at ≤ 65536 }
    ensures { Ahead (bits_of bytes.now) at result }
{
    eight_at(bytes, at / 8) << (at % 8)
}

// A byte into its place, if there is one. By its index: after a `get_mut` nothing is known of the other bytes.
fn set_byte(buffer: &mut [u8], place: usize, byte: u64)
    requires { byte < 256 }
    ensures { buffer.new ≡ set buffer.old place byte }
{
    if place < buffer.len() {
        buffer[place] = byte as u8;
    }
}

// A number of 24 bits with a value in the bits above the last `below`, so many.
fn blend(old: u64, width: usize, below: usize, value: u64) -> u64
    requires { (width + below ≤ 24) × (value < 2 ^ width) × (old < 2 ^ 24) }
    ensures { result ≡ (old / 2 ^ (width + below) * 2 ^ width + value) * 2 ^ below + old % 2 ^ below }
{
    ((((old >> (width + below)) << width) | value) << below) | (old & ((1 << below) - 1))
}

// A number of 24 bits into the three bytes from a place on, as far as they are there.
fn store(buffer: &mut [u8], from: usize, number: u64)
    requires { (from < length buffer.old) × (number < 2 ^ 24) }
    ensures { buffer.new ≡ set (set (set buffer.old from (number / 2 ^ 16)) (from + 1) (number / 2 ^ 8 % 2 ^ 8)) (from + 2) (number % 2 ^ 8) }
{
    set_byte(buffer, from, number >> 16);
    set_byte(buffer, from + 1, (number >> 8) & 255);
    set_byte(buffer, from + 2, number & 255);
}

// A field into the bits from a bit on; it and the bits around it lie in three bytes. The buffer and the bit stand apart, as in the
// definition `overlaid`: the places of a word's pieces are worked out from the word's.
pub(crate) fn put(buffer: &mut [u8], at: usize, width: usize, value: u64)
    requires { (1 ≤ width) × (width ≤ 16) × (value < 2 ^ width) × (at + width ≤ 8 * length buffer.old) × (at ≤ 65536) }
    ensures { bits_of buffer.new ≡ overlaid (bits_of buffer.old) at (bits width value) }
{
    let old = bytes_at(buffer, at / 8, 3);
    let number = blend(old, width, 24 - at % 8 - width, value);
    store(buffer, at / 8, number);
}

// The first bits of a word, so many, into the bits from a bit on, sixteen at a time. Buffer and bit stand apart, as in `put`.
pub(crate) fn put_word(buffer: &mut [u8], at: usize, width: usize, word: u64)
    requires { (width ≤ 64) × (at + width ≤ 8 * length buffer.old) × (at ≤ 65000) }
    ensures { bits_of buffer.new ≡ overlaid (bits_of buffer.old) at (take width (bits 64 word)) }
{
    for from in (0..width).step_by(16) {
        let count = (width - from).min(16);
        put(buffer, at + from, count, field(word, from, count));
    }
}
