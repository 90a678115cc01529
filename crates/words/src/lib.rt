// Lines of figures: a figure is a number of 32 bits in eight lower-case hexadecimal digits, which may
// be the bits of an f32. It is read from a place of a line, and put at one.

#![tactic(auto)]

ghost use Rattle.std.specs.Prelude.{◌≡◌, ◌+◌, ◌<◌, ◌≤◌, length, IfSome};
ghost use Rattle.io.specs.Digits.{hex_digit_ascii as Digits·glyph, last_digits};
ghost use Rattle.words.specs.Hex.{worth_of, number_of, digit_of, half_at, read_at, fits, put_at};

// How many digits a figure has.
const DIGITS: usize = 8;

// What a byte is worth, where it is a hexadecimal digit in lower case. The library's `to_digit` takes capitals too.
#[tactic(auto, unfolding(crate::specs::Hex::digit_of))]
fn read_digit(byte: u8) -> Option<u32>
    ensures value { result ≡ worth_of (digit_of byte) }
    ensures value_bound { IfSome result (λ v. v < 16) }
{
    match byte {
        b'0'..=b'9' => Some(u32::from(byte - b'0')),
        b'a'..=b'f' => Some(10 + u32::from(byte - b'a')),
        _ => None,
    }
}

// Whether a byte is such a digit.
fn is_digit(byte: u8) -> bool
    ensures { result ≡ (digit_of byte).ok }
{
    read_digit(byte).is_some()
}

// What a byte counts for: 0 where it is no digit.
fn worth(byte: u8) -> u32
    ensures value { result ≡ (digit_of byte).value }
    ensures upper_bound { result < 16 }
{
    read_digit(byte).unwrap_or(0)
}

// Whether the four bytes at a place of a line are digits.
#[tactic(auto, unfolding(crate::specs::Hex::half_at))]
fn are_digits(line: &[u8], at: usize) -> bool
    requires { at + 4 ≤ length line.now }
    ensures { result ≡ (half_at line.now at).ok }
{
    is_digit(line[at]) & is_digit(line[at + 1]) & is_digit(line[at + 2]) & is_digit(line[at + 3])
}

// The number that the four bytes at a place of a line make.
#[tactic(auto, unfolding(crate::specs::Hex::half_at))]
fn half(line: &[u8], at: usize) -> u32
    requires { at + 4 ≤ length line.now }
    ensures value { result ≡ (half_at line.now at).bits }
    ensures upper_bound { result < 65536 }
{
    let a = worth(line[at]);
    let b = worth(line[at + 1]);
    let c = worth(line[at + 2]);
    let d = worth(line[at + 3]);
    a * 4096 + b * 256 + c * 16 + d
}

// Whether eight bytes from a place on lie within so many.
fn is_room(n: usize, at: usize) -> bool
    ensures { result ≡ fits n at }
{
    n >= DIGITS && at <= n - 8
}

// The number whose eight digits stand at a place of a line. Where not all of them are digits, it is an Err, and whatever is no
// digit counts as 0; where the line ends before, an Err of 0.
#[tactic(auto, unfolding(crate::specs::Hex::read_at, crate::specs::Hex::word_at))]
pub fn read(line: &[u8], at: usize) -> Result<u32, u32>
    ensures { result ≡ number_of (read_at line.now at) }
{
    if !is_room(line.len(), at) {
        return Err(0);
    }
    let bits = half(line, at) * 65536 + half(line, at + 4);
    if are_digits(line, at) & are_digits(line, at + 4) {
        Ok(bits)
    } else {
        Err(bits)
    }
}

// The digit of a number below 16.
fn glyph(n: u32) -> u8
    requires { n < 16 }
    ensures { result ≡ Digits·glyph n }
{
    if n < 10 {
        b'0' + n as u8
    } else {
        b'a' - 10 + n as u8
    }
}

// Eight digits.
pub type Spelling = [u8; DIGITS];

// The eight digits of a number, the last of them first.
pub fn spelled(bits: u32) -> Spelling
    ensures { result ≡ last_digits 16 8 bits }
{
    let mut digits = [0; DIGITS];
    let mut rest = bits;
    for i in 0..DIGITS {
        digits[7 - i] = glyph(rest % 16);
        rest /= 16;
    }
    digits
}

// Puts the eight digits of a number at a place of a buffer, and answers whether they fit there. Where
// they do not, nothing changes.
#[tactic(auto, unfolding(crate::specs::Hex::put_at))]
pub fn put(out: &mut [u8], at: usize, bits: u32) -> bool
    ensures value { result ≡ fits (length out.old) at }
    ensures out_after { out.new ≡ put_at out.old at bits }
{
    let room = is_room(out.len(), at);
    if room {
        out[at..at + DIGITS].copy_from_slice(&spelled(bits));
    }
    room
}
