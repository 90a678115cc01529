// The level of the sound, twenty times a frame: an envelope that rises at once and falls slowly. The
// Rust's fixed_digital_level_estimator.

#![tactic(auto)]

mod lanes;

ghost use Rattle.std.specs.Prelude.{◌≡◌, cond, Some, None, List, ◌*◌, ◌<◌, length};
ghost use Rattle.units.specs.Handed.{handed};
ghost use Rattle.frames.specs.Samples.{largest_level, all_within};
ghost use Rattle.fixed_digital_level_estimator.specs.Envelope.{peaks_over, raised, smoothed, silence, decayed, linear};
ghost use Rattle.fixed_digital_level_estimator.specs.Estimator.{passes, none, made, computed, told, changed, cleared, heard};

use lanes::Lanes;
use std::simd::f32x4;
use units::kinds::LinearS16;
use units::refusals::{Refusal, check};

// How much of a level is kept from one sub-frame to the next while it falls.
const DECAY: f32 = 0.9971259;

// What the new value adds meanwhile: 1 - DECAY, which is exact.
const RISE: f32 = 0.0028740764;

// The envelope's last value (the Rust's `filter_state_level`), the samples of a channel and those of a
// sub-frame.
#[repr(C)]
#[derive(Clone, Copy)]
pub struct Estimator {
    pub level: f32,
    pub samples: usize,
    pub part: usize,
}

// The envelope of a frame, and the estimator that goes on from there.
#[derive(Clone, Copy)]
pub struct Levels {
    pub estimator: Estimator,
    pub envelope: [LinearS16; 20],
}

// The largest magnitudes of the twenty sub-frames over all channels, where each sample is within the
// bound: whatever the samples are, it looks at each once.
fn frame_peaks(frame: &[f32], channels: usize, samples: usize, part: usize) -> Option<[f32; 20]>
    requires { (length frame.now ≡ channels * samples) × (samples ≡ 20 * part) × (0 < samples) }
    ensures { result ≡ cond (all_within largest_level frame.now) (Some (peaks_over channels samples part silence frame.now)) None }
{
    let mut peaks = [0.0; 20];
    let mut highest = 0.0;
    let mut sum = f32x4::splat(0.0);
    for k in 0..20 {
        let next = Lanes::at(sum).raise_by_column(frame, k * part, channels, samples, part);
        let peak = next.largest();
        peaks[k] = peak;
        highest = floats::larger(peak, highest);
        sum = next.sum;
    }
    let [s, t, u, v] = sum.to_array();
    let tame = (highest <= frames::LARGEST_LEVEL)
        & floats::is_finite(s)
        & floats::is_finite(t)
        & floats::is_finite(u)
        & floats::is_finite(v);
    if tame { Some(peaks) } else { None }
}

// Each value but the last raised to its right neighbour, as that came in, where that is larger.
fn raise(found: [f32; 20]) -> [f32; 20]
    ensures { result ≡ raised found }
{
    let mut out = found;
    for k in 0..19 {
        let higher = floats::larger(out[k], out[k + 1]);
        out[k] = higher;
    }
    out
}

// The next value of the envelope: the new one where it is above the last, and otherwise a little of
// the new one and most of the last.
fn follow(last: f32, value: f32) -> f32
    ensures { result ≡ decayed last value }
{
    floats::pick(last < value, value, value * RISE + last * DECAY)
}

// The envelope that follows the values from a level on.
fn smooth(level: f32, found: [f32; 20]) -> [LinearS16; 20]
    ensures { result ≡ linear (smoothed level found) }
{
    let mut out = [LinearS16(0.0); 20];
    let mut last = level;
    for (k, value) in found.iter().enumerate() {
        last = follow(last, *value);
        out[k] = LinearS16(last);
    }
    out
}

impl Estimator {
    // An estimator with all fields 0: it does not pass.
    pub fn none() -> Estimator
        ensures { result ≡ none }
    {
        Estimator {
            level: 0.0,
            samples: 0,
            part: 0,
        }
    }

    // An estimator for channels of so many samples; refused with 1 where no frame has so many.
    pub fn new(samples: usize) -> Result<Estimator, Refusal>
        ensures { result ≡ handed (made samples).reply (made samples).estimator }
    {
        check(frames::is_samples(samples), true, true, true)?;
        let part = samples / 20;
        Ok(Estimator {
            level: 0.0,
            samples,
            part,
        })
    }

    // Whether a handed-in state passes: a level from 0 to 33554432, samples that a frame can have, and
    // a twentieth of them in a sub-frame.
    pub fn passes(self) -> bool
        ensures { result ≡ passes self }
    {
        units::figures::is_curve_level(LinearS16(self.level))
            & frames::is_samples(self.samples)
            & (self.part == self.samples / 20)
    }

    // The envelope of a frame, and the state after it; refused with 1, 4 or 3.
    pub fn compute_level(
        self,
        frame: &[f32],
        channels: usize,
        samples: usize,
    ) -> Result<Levels, Refusal>
        ensures { result ≡ handed (computed self frame.now channels samples).reply (told (computed self frame.now channels samples)) }
    {
        let shape = frames::is_shape(channels, samples, frame.len()) & (samples == self.samples);
        check(shape, self.passes(), true, true)?;
        let peaks = frame_peaks(frame, channels, samples, self.part).ok_or(Refusal::Sample)?;
        let envelope = smooth(self.level, raise(peaks));
        Ok(Levels {
            estimator: Estimator {
                level: envelope[19].0,
                ..self
            },
            envelope,
        })
    }

    // The estimator for channels of so many samples, at the same level; refused with 1 or 4.
    pub fn set_samples_per_channel(self, samples: usize) -> Result<Estimator, Refusal>
        ensures { result ≡ handed (changed self samples).reply (changed self samples).estimator }
    {
        check(frames::is_samples(samples), self.passes(), true, true)?;
        Ok(Estimator {
            samples,
            part: samples / 20,
            ..self
        })
    }

    // The estimator at level 0; a state that fails its test is refused with 4.
    pub fn reset(self) -> Result<Estimator, Refusal>
        ensures { result ≡ handed (cleared self).reply (cleared self).estimator }
    {
        check(true, self.passes(), true, true)?;
        Ok(Estimator { level: 0.0, ..self })
    }

    // The envelope's last value; a state that fails its test is refused with 4.
    pub fn last_audio_level(self) -> Result<LinearS16, Refusal>
        ensures { result ≡ handed (heard self).reply (heard self).level }
    {
        let ok = self.passes();
        check(true, ok, true, true)?;
        Ok(LinearS16(self.level))
    }
}
