// The samples of a WAV file, one of each channel after the other, to and from a frame, which has channel after
// channel.

ghost use Rattle.std.specs.Prelude.{◌≡◌, ◌*◌, ◌<◌, ◌≤◌, true, ◌++◌, length, drop, from_bits, slice_index_or};
ghost use Rattle.std.specs.Float.{binary32};
ghost use Rattle.units.specs.Handed.{handed};
ghost use Rattle.frames.specs.Shape.{is_shape};
ghost use Rattle.wav_format.specs.Samples.{sound_of, heard_from, full_scale, all_full_scale, number_of, bytes_from, frame_read, frame_written};

use crate::numbers::{put_two, two_at};
use units::refusals::Refusal;

// The ends of a sample of 16 bits.
const LOWEST: f32 = -32768.0;

const HIGHEST: f32 = 32767.0;

// The sample whose two bytes are a number: from 32768 on it is below zero.
fn sound_of(n: u16) -> f32
    ensures { result ≡ sound_of n }
{
    n.cast_signed() as f32
}

// Fills a frame of this shape from its bytes.
fn hear(bytes: &[u8], frame: &mut [f32], channels: usize, samples: usize)
    requires { is_shape channels samples (length frame.old) ≡ true }
    ensures { frame.new ≡ heard_from bytes.now channels samples 0 (length frame.old) }
{
    for (j, x) in frame.iter_mut().enumerate() {
        let place = (j % samples) * channels + j / samples;
        *x = sound_of(two_at(bytes, 2 * place));
    }
}

// Reads a frame from its bytes. Refused is a buffer that has not this shape, and bytes that are not two for each of
// its samples; the frame stays as it was then.
pub fn read_frame(
    bytes: &[u8],
    frame: &mut [f32],
    channels: usize,
    samples: usize,
) -> Result<(), Refusal>
    ensures value { result ≡ handed (frame_read bytes.now frame.old channels samples).reply tt }
    ensures frame_after { frame.new ≡ (frame_read bytes.now frame.old channels samples).frame }
{
    let twice = bytes.len() == 2 * frame.len();
    if frames::is_shape(channels, samples, frame.len()) & twice {
        hear(bytes, frame, channels, samples);
        Ok(())
    } else {
        Err(Refusal::Shape)
    }
}

// Whether a sample is between the ends of 16 bits.
fn is_full_scale(x: f32) -> bool
    ensures { result ≡ full_scale x }
{
    (LOWEST <= x) & (x <= HIGHEST)
}

// Whether every sample of a frame is. It looks at each sample, whatever it finds.
fn are_full_scale(frame: &[f32]) -> bool
    ensures { result ≡ all_full_scale frame.now }
{
    let mut ok = true;
    for x in frame {
        ok = ok & is_full_scale(*x);
    }
    ok
}

// The number of a sample's two bytes: the nearest whole number, halves away from zero, and 0 for a sample beyond full
// scale.
fn number_of(x: f32) -> u16
    ensures { result ≡ number_of x }
{
    if is_full_scale(x) {
        let size = std::num::truncating_f32_to_u64(floats::magnitude(x) + 0.5) as u16;
        if x < 0.0 { size.wrapping_neg() } else { size }
    } else {
        0
    }
}

// The sample at a place, or 0.
fn sample_at(frame: &[f32], at: usize) -> f32
    ensures { result ≡ slice_index_or frame.now at (from_bits binary32 0) }
{
    frame.get(at).copied().unwrap_or(0.0)
}

// Stores the bytes of a frame of this shape at the start of a buffer that has room for them.
fn put_sound(frame: &[f32], channels: usize, samples: usize, out: &mut [u8])
    requires frame_value { is_shape channels samples (length frame.now) ≡ true }
    requires frame_in_bounds { 2 * length frame.now ≤ length out.old }
    ensures { out.new ≡ bytes_from frame.now channels samples 0 (length frame.now) ++ drop (2 * length frame.now) out.old }
{
    for k in 0..frame.len() {
        let x = sample_at(frame, (k % channels) * samples + k / channels);
        put_two(number_of(x), out, 2 * k);
    }
}

// Writes the bytes of a frame to the start of a lent buffer. Refused, in this order, are a frame that has not this shape,
// a sample beyond full scale, and a buffer that is too short; nothing is written then.
pub fn write_frame(
    frame: &[f32],
    channels: usize,
    samples: usize,
    out: &mut [u8],
) -> Result<(), Refusal>
    ensures value { result ≡ handed (frame_written frame.now channels samples out.old).reply tt }
    ensures out_after { out.new ≡ (frame_written frame.now channels samples out.old).out }
{
    if !frames::is_shape(channels, samples, frame.len()) {
        Err(Refusal::Shape)
    } else if !are_full_scale(frame) {
        Err(Refusal::Sample)
    } else if out.len() < 2 * frame.len() {
        Err(Refusal::Room)
    } else {
        put_sound(frame, channels, samples, out);
        Ok(())
    }
}
