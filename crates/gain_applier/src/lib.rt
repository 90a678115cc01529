// A gain put on a frame of sound, with a ramp from the last gain to the next one, and clipping if it
// is set. The Rust's gain_applier.

#![tactic(auto)]

ghost use Rattle.std.specs.Prelude.{◌≡◌, ◌*◌, ◌≤◌, List, length, Float};
ghost use Rattle.std.specs.List.{AllZip};
ghost use Rattle.frames.specs.Parts.{each_part};
ghost use Rattle.gain_applier.specs.Sound.{close_to_one, scaled, ramped, clipped, finished, gained};
ghost use Rattle.gain_applier.specs.Gains.{gains_from, gain_after, multiplied};
ghost use Rattle.gain_applier.specs.Applier.{remembered, inverse_of, passes, none, made, Applied, applied, aimed, told};
ghost use Rattle.units.specs.Handed.{handed};

use units::refusals::{Refusal, check};

// The ends of what counts as a gain of 1: 1 - 1/32767 and 1 + 1/32767, worked out in f32.
const LEAST_ONE: f32 = 0.9999695;

const MOST_ONE: f32 = 1.0000305;

// The ends of a sample of 16 bits.
const LOWEST: f32 = -32768.0;

const HIGHEST: f32 = 32767.0;

// So many samples are done in one go, without a branch between them: a millisecond at 48 kHz. Plain loops over a whole
// part were tried, and take a quarter to a half more instructions; of `chunks_mut` a proof knows nothing of what the part ends as.
const BLOCK: usize = 48;

// Whether samples are clipped, the gain factor that the last frame ended with, the one to end the next
// frame with, the samples of a channel (-1 before the first frame) and 1 over them.
#[derive(Clone, Copy)]
pub struct Applier {
    pub clip: bool,
    pub last: f32,
    pub current: f32,
    pub samples: i32,
    pub inverse: f32,
}

// Whether a gain factor is so close to 1 that it would not change a sample of 16 bits.
#[tactic(auto, unfolding(crate::specs::Sound::close_to_one))]
fn is_close_to_one(gain: f32) -> bool
    ensures { result ≡ close_to_one gain }
{
    (LEAST_ONE <= gain) & (gain <= MOST_ONE)
}

// Changes each sample of a part.
fn change_some<F: Fn(f32) -> f32>(part: &mut [f32], f: &F)
    requires { F.IsAlwaysCallable f.now }
    ensures { AllZip (λ x y. F.post f.now x y) part.old part.new }
{
    for x in part.iter_mut() {
        *x = f(*x);
    }
}

// Changes each sample of a part: block after block, and then what is left.
fn change<F: Fn(f32) -> f32>(part: &mut [f32], f: F)
    requires { F.IsAlwaysCallable f }
    ensures { AllZip (λ x y. F.post f x y) part.old part.new }
{
    let mut at = 0;
    while BLOCK <= part.len() - at {
        let to = at + BLOCK;
        change_some(&mut part[at..to], &f);
        at = to;
    }
    change_some(&mut part[at..], &f);
}

// Multiplies each sample of a part by the gain.
fn scale(part: &mut [f32], gain: f32)
    ensures { part.new ≡ scaled gain part.old }
{
    change(part, |x| x * gain);
}

// Fills with gains, each one step after the one before, and answers the next.
fn fill_some(gains: &mut [f32], from: f32, step: f32) -> f32
    ensures value { result ≡ gain_after (length gains.old) from step }
    ensures gains_after { gains.new ≡ gains_from (length gains.old) from step }
{
    let mut gain = from;
    for x in gains.iter_mut() {
        *x = gain;
        gain = gain + step;
    }
    gain
}

// Fills with gains, each one step after the one before: block after block, and then what is left.
fn fill_gains(gains: &mut [f32], from: f32, step: f32)
    ensures { gains.new ≡ gains_from (length gains.old) from step }
{
    let mut next = from;
    let mut at = 0;
    while BLOCK <= gains.len() - at {
        let to = at + BLOCK;
        next = fill_some(&mut gains[at..to], next, step);
        at = to;
    }
    next = fill_some(&mut gains[at..], next, step);
}

// Multiplies each sample of a part by its gain.
fn multiply_some(part: &mut [f32], gains: &[f32])
    requires { length part.old ≤ length gains.now }
    ensures { part.new ≡ multiplied gains.now part.old }
{
    for (i, x) in part.iter_mut().enumerate() {
        *x = *x * gains[i];
    }
}

// Multiplies each sample of a part by its gain: block after block, and then what is left.
fn multiply(part: &mut [f32], gains: &[f32])
    requires { length part.old ≤ length gains.now }
    ensures { part.new ≡ multiplied gains.now part.old }
{
    let mut at = 0;
    while BLOCK <= part.len() - at {
        let to = at + BLOCK;
        multiply_some(&mut part[at..to], &gains[at..to]);
        at = to;
    }
    multiply_some(&mut part[at..], &gains[at..]);
}

// Brings each sample of a part between the ends of 16 bits.
fn clip_samples(part: &mut [f32])
    ensures { part.new ≡ clipped part.old }
{
    change(part, |x| floats::clamp(x, LOWEST, HIGHEST));
}

// Clips a frame if that is set.
#[tactic(auto, unfolding(crate::specs::Sound::finished))]
fn finish(frame: &mut [f32], clip: bool)
    ensures { frame.new ≡ finished clip frame.old }
{
    if clip {
        clip_samples(frame);
    }
}

// Lends each channel's part of a frame to a call, one after another. Whatever the call makes of a part of so many samples
// is made of each. It asks something of its caller, as no public function does, so it is no function of `frames`.
fn each_channel<F: Fn(&mut [f32])>(frame: &mut [f32], channels: usize, samples: usize, f: F)
    requires callable { (part : _) → length part.now ≡ samples → F.pre f part }
    requires shape { length frame.old ≡ channels * samples }
    ensures { (made : List Float → List Float) → ((part after : _) → length part.now ≡ samples → F.post f part tt after → after.now ≡ made part.now)
        → frame.new ≡ each_part made channels samples frame.old }
{
    let mut start = 0;
    for _ in 0..channels {
        let end = start + samples;
        f(&mut frame[start..end]);
        start = end;
    }
}

// Ramps each channel's part. The gains are the same for each, so they are worked out once.
fn ramp(frame: &mut [f32], channels: usize, samples: usize, from: f32, step: f32)
    requires { (length frame.old ≡ channels * samples) × (samples ≤ 480) }
    ensures { frame.new ≡ each_part (ramped from step) channels samples frame.old }
{
    let mut room = [0.0; 480];
    let gains = &mut room[..samples];
    fill_gains(gains, from, step);
    each_channel(frame, channels, samples, |part| multiply(part, gains));
}

// Puts the gain on a frame: nothing where it stays and is close to 1, the same factor everywhere where
// it stays, and otherwise a ramp in each channel.
fn put_gain(
    frame: &mut [f32],
    channels: usize,
    samples: usize,
    last: f32,
    current: f32,
    inverse: f32,
)
    requires { (length frame.old ≡ channels * samples) × (samples ≤ 480) }
    ensures { frame.new ≡ gained last current inverse channels samples frame.old }
{
    if last == current {
        if is_close_to_one(current) {
            return;
        }
        each_channel(frame, channels, samples, |part| scale(part, current));
    } else {
        ramp(frame, channels, samples, last, (current - last) * inverse);
    }
}

// 1 over the samples as f32.
#[tactic(auto, unfolding(crate::specs::Applier::inverse_of))]
fn inverse_of(samples: i32) -> f32
    ensures { result ≡ inverse_of samples }
{
    1.0 / std::num::nearest_i32_to_f32(samples)
}

// Whether samples are -1 or those of a frame.
fn is_remembered(samples: i32) -> bool
    ensures { result ≡ remembered samples }
{
    if samples < 0 {
        samples == -1
    } else {
        frames::is_samples(samples as usize)
    }
}

impl Applier {
    // All 0 and false: what stands where there is no applier. It passes no test.
    #[tactic(auto, unfolding(crate::specs::Applier::none))]
    pub fn none() -> Applier
        ensures { result ≡ none }
    {
        Applier {
            clip: false,
            last: 0.0,
            current: 0.0,
            samples: 0,
            inverse: 0.0,
        }
    }

    // An applier at a gain factor above 0 and below 512; refused with 2 at any other.
    #[tactic(auto, unfolding(crate::specs::Applier::made, crate::specs::Applier::starting, units::specs::Handed::handed, units::specs::Replies::refusal))]
    pub fn new(clip: bool, factor: f32) -> Result<Applier, Refusal>
        ensures { result ≡ handed (made clip factor).reply (made clip factor).applier }
    {
        check(true, true, units::figures::is_gain_factor(factor), true)?;
        Ok(Applier {
            clip,
            last: factor,
            current: factor,
            samples: -1,
            inverse: -1.0,
        })
    }

    // Whether a handed-in state passes: both factors in range, samples that are -1 or a frame's, and 1
    // over them beside them.
    #[tactic(auto, unfolding(crate::specs::Applier::passes))]
    pub fn passes(self) -> bool
        ensures { result ≡ passes self }
    {
        let samples = self.samples;
        units::figures::is_gain_factor(self.last)
            & units::figures::is_gain_factor(self.current)
            & is_remembered(samples)
            & (self.inverse == inverse_of(samples))
    }

    // Puts the gain on a frame, with a ramp where it changed, and clips if that is set; refused with
    // 1, 4 or 3, and then the frame stays as it was.
    pub fn apply_gain(
        self,
        frame: &mut [f32],
        channels: usize,
        samples: usize,
    ) -> Result<Applier, Refusal>
        ensures value { result ≡ handed (applied self frame.old channels samples).next.reply (applied self frame.old channels samples).next.applier }
        ensures frame_after { frame.new ≡ (applied self frame.old channels samples).frame }
    {
        let ok = self.passes();
        frames::check(
            frame,
            channels,
            samples,
            true,
            ok,
            true,
            frames::LARGEST_INPUT,
        )?;
        let inverse = inverse_of(samples as i32);
        put_gain(frame, channels, samples, self.last, self.current, inverse);
        finish(frame, self.clip);
        Ok(Applier {
            last: self.current,
            samples: samples as i32,
            inverse,
            ..self
        })
    }

    // The applier with another gain factor to end the next frame with; refused with 4 or 2.
    #[tactic(auto, unfolding(crate::specs::Applier::aimed, units::specs::Handed::handed, units::specs::Replies::refusal))]
    pub fn set_gain_factor(self, factor: f32) -> Result<Applier, Refusal>
        ensures { result ≡ handed (aimed self factor).reply (aimed self factor).applier }
    {
        let ok = self.passes();
        let fits = units::figures::is_gain_factor(factor);
        check(true, ok, fits, true)?;
        Ok(Applier {
            current: factor,
            ..self
        })
    }

    // The gain factor that the next frame ends with; a state that fails its test is refused with 4.
    #[tactic(auto, unfolding(crate::specs::Applier::told, units::specs::Handed::handed, units::specs::Replies::refusal))]
    pub fn get_gain_factor(self) -> Result<f32, Refusal>
        ensures { result ≡ handed (told self).reply (told self).factor }
    {
        check(true, self.passes(), true, true)?;
        Ok(self.current)
    }
}
