// What a plain meter needs of 10 ms of sound: the sum of the squares and the peak, in whole numbers, exactly, and the
// bytes by which a metering tells them. The samples come as a WAV file has them.

#![tactic(auto)]

ghost use Rattle.std.specs.Prelude.{◌≡◌, true, ◌+◌, ◌*◌, ◌≤◌, length};
ghost use Rattle.units.specs.Handed.{handed};
ghost use Rattle.loudness.specs.Sound.{magnitude_of, squares_from, peak_from, over_channels, square_of, peak_of, is_frame, heard_of, loudness_of};
ghost use Rattle.loudness.specs.Metering.{put_loudness, put_format};

use units::refusals::Refusal;
use wav_format::head::is_sizes;

// The bytes that a metering begins with, and those of each 10 ms.
pub const FORMAT_BYTES: usize = 12;

pub const RECORD_BYTES: usize = 12;

// The largest sum of the squares of a channel's samples, and the largest magnitude of any sample.
#[derive(Clone, Copy)]
pub struct Loud {
    pub square: u64,
    pub peak: u32,
}

// How far the sample whose two bytes are a number is from zero: from 32768 on it is below.
fn magnitude(n: u16) -> u32
    ensures value { result ≡ magnitude_of n }
    ensures upper_bound { result ≤ 32768 }
{
    n.cast_signed().unsigned_abs() as u32
}

// The sum of the squares and the peak of one channel: its first sample at a place, one at each stride after it.
fn one_channel(bytes: &[u8], first: usize, stride: usize, samples: usize) -> Loud
    requires first_bound { first + 2 ≤ stride }
    requires bytes_len { length bytes.now ≡ stride * samples }
    requires stride_bound { stride ≤ 16 }
    requires samples_bound { samples ≤ 480 }
    ensures square_value { result.square ≡ squares_from bytes.now stride first samples }
    ensures peak_value { result.peak ≡ peak_from bytes.now stride first samples }
{
    let mut square: u64 = 0;
    let mut peak: u32 = 0;
    let mut at = first;
    for left in (0..samples).rev() {
        let n = u16::from_le_bytes([bytes[at], bytes[at + 1]]);
        let size = magnitude(n);
        square += u64::from(size * size);
        peak = peak.max(size);
        at += stride;
    }
    Loud { square, peak }
}

// The largest of both over the channels of a frame.
fn all_channels(bytes: &[u8], channels: usize, samples: usize) -> Loud
    requires { is_frame channels samples (length bytes.now) ≡ true }
    ensures square_value { result.square ≡ over_channels (square_of bytes.now channels samples) 0 channels }
    ensures peak_value { result.peak ≡ over_channels (peak_of bytes.now channels samples) 0 channels }
{
    let mut square: u64 = 0;
    let mut peak: u32 = 0;
    for c in 0..channels {
        let one = one_channel(bytes, 2 * c, 2 * channels, samples);
        square = square.max(one.square);
        peak = peak.max(one.peak);
    }
    Loud { square, peak }
}

// Whether so many bytes are those of a frame: two for each sample of each channel.
fn is_frame(channels: usize, samples: usize, length: usize) -> bool
    ensures { result ≡ is_frame channels samples length }
{
    // The product is taken only of numbers that are in their ranges, so that it cannot wrap.
    let sizes = is_sizes(channels, samples);
    let c = floats::pick(sizes, channels, 0);
    let s = floats::pick(sizes, samples, 0);
    sizes & (length == 2 * c * s)
}

// How loud 10 ms of 16-bit sound are. The bytes are the samples as a WAV file has them: the channels of a sample side by side,
// each with its lower byte first. Refused for their shape are channels that are not 1 to 8, samples of a channel that are no
// frame's, and bytes that are not two for each sample of each channel.
pub fn loudness(bytes: &[u8], channels: usize, samples: usize) -> Result<Loud, Refusal>
    ensures { result ≡ handed (loudness_of bytes.now channels samples).reply (heard_of (loudness_of bytes.now channels samples)) }
{
    if !is_frame(channels, samples, bytes.len()) {
        return Err(Refusal::Shape);
    }
    Ok(all_channels(bytes, channels, samples))
}

// Writes how loud 10 ms are to the first 12 bytes of a lent buffer: the square as eight bytes and the peak as four, the lowest
// byte first. Refused is what `loudness` refuses, and then a buffer that is shorter; nothing is written then.
pub fn put_loudness(
    bytes: &[u8],
    channels: usize,
    samples: usize,
    out: &mut [u8],
) -> Result<(), Refusal>
    ensures value { result ≡ handed (put_loudness bytes.now channels samples out.old).reply tt }
    ensures out_after { out.new ≡ (put_loudness bytes.now channels samples out.old).out }
{
    let heard = loudness(bytes, channels, samples)?;
    if out.len() < RECORD_BYTES {
        return Err(Refusal::Room);
    }
    out[..8].copy_from_slice(&heard.square.to_le_bytes());
    out[8..12].copy_from_slice(&heard.peak.to_le_bytes());
    Ok(())
}

// Writes the 12 bytes that a metering begins with to a lent buffer: the samples of a channel in 10 ms, the channels and the size
// that the file says of its samples, each as four bytes, the lowest first. Refused are sizes that are no frame's,
// and then a buffer that is shorter; nothing is written then.
pub fn put_format(channels: usize, samples: usize, size: u32, out: &mut [u8]) -> Result<(), Refusal>
    ensures value { result ≡ handed (put_format channels samples size out.old).reply tt }
    ensures out_after { out.new ≡ (put_format channels samples size out.old).out }
{
    if !is_sizes(channels, samples) {
        Err(Refusal::Shape)
    } else if out.len() < FORMAT_BYTES {
        Err(Refusal::Room)
    } else {
        out[..4].copy_from_slice(&(samples as u32).to_le_bytes());
        out[4..8].copy_from_slice(&(channels as u32).to_le_bytes());
        out[8..12].copy_from_slice(&size.to_le_bytes());
        Ok(())
    }
}
