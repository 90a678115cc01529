// Little-endian numbers in a list of bytes: read, where bytes that are not there count as 0, and stored.

ghost use Rattle.std.specs.Prelude.{◌≡◌, ◌+◌, ◌*◌, ◌^◌, ◌<◌, ◌≤◌, ◌++◌, length, take, drop, slice_index};
ghost use Rattle.wav_format.specs.Bytes.{little_at, little};
ghost use Rattle.wav_format.specs.Steps.{in_fours};

// The byte at a place, or 0.
fn byte_at(bytes: &[u8], at: usize) -> u8
    ensures { result ≡ slice_index bytes.now at }
{
    bytes.get(at).copied().unwrap_or(0)
}

// The number of the two bytes at a place.
pub(crate) fn two_at(bytes: &[u8], at: usize) -> u16
    requires { at < 2 ^ 63 }
    ensures { result ≡ little_at bytes.now at 2 }
{
    let low = byte_at(bytes, at);
    let high = byte_at(bytes, at + 1);
    u16::from_le_bytes([low, high])
}

// The number of the four bytes at a place.
pub(crate) fn four_at(bytes: &[u8], at: usize) -> u32
    requires { at < 2 ^ 62 }
    ensures { result ≡ little_at bytes.now at 4 }
{
    let low = two_at(bytes, at) as u32;
    let high = two_at(bytes, at + 2) as u32;
    low + 65536 * high
}

// Stores a number in the two bytes at a place.
pub(crate) fn put_two(n: u16, out: &mut [u8], at: usize)
    requires { at + 2 ≤ length out.old }
    ensures { out.new ≡ take at out.old ++ little 2 n ++ drop (at + 2) out.old }
{
    out[at..at + 2].copy_from_slice(&n.to_le_bytes());
}

// Stores a number in the four bytes at a place.
fn put_four(n: u32, out: &mut [u8], at: usize)
    requires { at + 4 ≤ length out.old }
    ensures { out.new ≡ take at out.old ++ little 4 n ++ drop (at + 4) out.old }
{
    out[at..at + 4].copy_from_slice(&n.to_le_bytes());
}

// Stores numbers of four bytes from a place on.
pub(crate) fn put_fours(numbers: &[u32], out: &mut [u8], at: usize)
    requires { at + 4 * length numbers.now ≤ length out.old }
    ensures { out.new ≡ take at out.old ++ in_fours numbers.now ++ drop (at + 4 * length numbers.now) out.old }
{
    for (k, n) in numbers.iter().enumerate() {
        put_four(*n, out, at + 4 * k);
    }
}
