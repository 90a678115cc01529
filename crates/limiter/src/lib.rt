// The limiter: what the gain curve makes of the level, put on each sample, and a clamp. The Rust's
// limiter.

#![tactic(auto)]

ghost use Rattle.std.specs.Prelude.{◌≡◌, ◌*◌, ◌≤◌, ◌<◌, ◌+◌, T, OnOk, length, take};
ghost use Rattle.frames.specs.Parts.{each_part};
ghost use Rattle.units.specs.Handed.{handed};
ghost use Rattle.lists.specs.Each.{Each};
ghost use Rattle.interpolated_gain_curve.specs.Curve as Curves;
ghost use Rattle.fixed_digital_level_estimator.specs.Envelope.{plain};
ghost use Rattle.fixed_digital_level_estimator.specs.Range.{Level};
ghost use Rattle.limiter.specs.Scale.{FullScale};
ghost use Rattle.limiter.specs.Limiter.{gains_of, curve_after, passes, none, made, processed, changed, cleared, heard};
ghost use Rattle.limiter.specs.Factors.{whole, line, straight, eighth, curved, first_part, later_parts, factors, limited};

use fixed_digital_level_estimator::Estimator;
use interpolated_gain_curve::Curve;
use units::kinds::LinearS16;
use units::refusals::{Refusal, check};

// The ends of a sample of 16 bits.
const LOWEST: f32 = -32768.0;

const HIGHEST: f32 = 32767.0;

// The level estimator, the gain curve with its counts, and the factor that the last frame ended with.
#[derive(Clone, Copy)]
pub struct Limiter {
    pub estimator: Estimator,
    pub curve: Curve,
    pub carried: f32,
}

// The eighth power, by three squarings.
fn eighth_power(x: f32) -> f32
    ensures { result ≡ eighth x }
{
    let x2 = x * x;
    let x4 = x2 * x2;
    x4 * x4
}

// Fills with factors on a straight line, from start in steps.
fn fill_line(part: &mut [f32], start: f32, step: f32)
    requires { length part.old ≤ 480 }
    ensures { part.new ≡ line start step 0 (length part.old) }
{
    for (j, factor) in part.iter_mut().enumerate() {
        *factor = start + step * (j as u16 as f32);
    }
}

// Fills a sub-frame with factors on a straight line from start towards end. That of 48 kHz has a way
// of its own, which has no loop when it runs: without it a frame takes 2,600 instructions more.
fn fill_straight(part: &mut [f32], start: f32, end: f32)
    requires { length part.old ≤ 480 }
    ensures { part.new ≡ straight (length part.old) start end }
{
    if part.len() == 24 {
        fill_line(&mut part[..24], start, (end - start) / 24.0);
    } else {
        let step = (end - start) / (part.len() as u16 as f32);
        fill_line(part, start, step);
    }
}

// Fills a sub-frame with factors that fall by the eighth power from start towards end.
fn fill_curved(part: &mut [f32], start: f32, end: f32)
    requires { length part.old ≤ 480 }
    ensures { part.new ≡ curved (length part.old) start end 0 (length part.old) }
{
    let n = part.len() as u16 as f32;
    let difference = start - end;
    for (j, factor) in part.iter_mut().enumerate() {
        let t = (j as u16 as f32) / n;
        *factor = eighth_power(1.0 - t) * difference + end;
    }
}

// Multiplies each sample of a part by its factor, and brings it between the ends of 16 bits.
fn limit(part: &mut [f32], by: &[f32])
    requires { length part.old ≤ length by.now }
    ensures { part.new ≡ limited by.now part.old }
{
    for (i, x) in part.iter_mut().enumerate() {
        *x = floats::clamp(*x * by[i], LOWEST, HIGHEST);
    }
}

// Lends each channel's part to `limit`. The start is counted here: over `chunks_exact_mut` the proof
// does not close, since nothing is known afterwards of what the parts hold.
fn limit_channels(frame: &mut [f32], channels: usize, samples: usize, by: &[f32])
    requires { (length frame.old ≡ channels * samples) × (samples ≤ length by.now) }
    ensures { frame.new ≡ each_part (limited by.now) channels samples frame.old }
{
    let mut start = 0;
    for _ in 0..channels {
        let end = start + samples;
        limit(&mut frame[start..end], by);
        start = end;
    }
}

// Fills the first sub-frame: by the eighth power where the factor falls, and otherwise on a line.
fn fill_first(part: &mut [f32], start: f32, end: f32)
    requires { length part.old ≤ 480 }
    ensures { part.new ≡ first_part (length part.old) start end }
{
    if end < start {
        fill_curved(part, start, end);
    } else {
        fill_straight(part, start, end);
    }
}

// The gains of twenty levels, and the curve that has counted them.
#[derive(Clone, Copy)]
struct Gains {
    curve: Curve,
    gains: [f32; 20],
}

// Looks twenty levels up, one after the other. None is refused.
fn look_up(curve: Curve, levels: [LinearS16; 20]) -> Gains
    requires { T (Curves.passes curve) × Each Level (plain levels) }
    ensures { (result.gains ≡ gains_of curve (plain levels)) × (result.curve ≡ curve_after curve (plain levels)) }
{
    let mut gains = [0.0; 20];
    let mut counted = curve;
    for (k, level) in levels.iter().enumerate() {
        let looked = counted.look_up_gain_to_apply(*level).unwrap();
        gains[k] = looked.gain;
        counted = looked.curve;
    }
    Gains {
        curve: counted,
        gains,
    }
}

// Fills a channel's factors: the first sub-frame from the carried factor, each later one from the gain
// before it.
fn fill_factors(by: &mut [f32], part: usize, carried: f32, gains: [f32; 20])
    requires { (length by.old ≡ 20 * part) × (part ≤ 24) }
    ensures { by.new ≡ factors part carried gains }
{
    fill_first(&mut by[..part], carried, gains[0]);
    for k in 1..20 {
        let from = k * part;
        fill_straight(&mut by[from..from + part], gains[k - 1], gains[k]);
    }
}

// The factors of a channel of so many samples, at the start of an array; zeros follow.
fn channel_factors(samples: usize, part: usize, carried: f32, gains: [f32; 20]) -> [f32; 480]
    requires { (samples ≡ 20 * part) × (part ≤ 24) }
    ensures { take samples result ≡ factors part carried gains }
{
    let mut by = [0.0; 480];
    fill_factors(&mut by[..samples], part, carried, gains);
    by
}

impl Limiter {
    // A limiter with all fields 0, false and identity: it does not pass.
    pub fn none() -> Limiter
        ensures { result ≡ none }
    {
        Limiter {
            estimator: Estimator::none(),
            curve: Curve::new(),
            carried: 0.0,
        }
    }

    // A limiter for channels of so many samples, at factor 1; refused with 1 where no frame has so many.
    pub fn new(samples: usize) -> Result<Limiter, Refusal>
        ensures { result ≡ handed (made samples).reply (made samples).limiter }
    {
        let estimator = Estimator::new(samples)?;
        Ok(Limiter {
            estimator,
            curve: Curve::new(),
            carried: 1.0,
        })
    }

    // Whether a handed-in state passes: its estimator and its curve do, and the carried factor lies above
    // 0 and below 2.
    pub fn passes(self) -> bool
        ensures { result ≡ passes self }
    {
        let estimator = self.estimator;
        let curve = self.curve;
        let carried = self.carried;
        estimator.passes() & curve.passes() & ((0.0 < carried) & (carried < 2.0))
    }

    // Limits a frame where it stands; refused with 1, 4 or 3, and then the frame stays as it was.
    pub fn process(
        self,
        frame: &mut [f32],
        channels: usize,
        samples: usize,
    ) -> Result<Limiter, Refusal>
        ensures value { result ≡ handed (processed self frame.old channels samples).next.reply (processed self frame.old channels samples).next.limiter }
        ensures frame_after { frame.new ≡ (processed self frame.old channels samples).frame }
        ensures scale { OnOk result (FullScale frame.new) }
    {
        // What the estimator refuses, the limiter does; but its own state is tested before the samples.
        let set = samples == self.estimator.samples;
        let shape = frames::is_shape(channels, samples, frame.len()) & set;
        check(shape, self.passes(), true, true)?;
        let heard = self.estimator.compute_level(frame, channels, samples)?;
        let looked = look_up(self.curve, heard.envelope);
        let by = channel_factors(samples, self.estimator.part, self.carried, looked.gains);
        limit_channels(frame, channels, samples, &by[..samples]);
        Ok(Limiter {
            estimator: heard.estimator,
            curve: looked.curve,
            carried: looked.gains[19],
        })
    }

    // The limiter for channels of so many samples, all else as it was; refused with 1 or 4.
    pub fn set_samples_per_channel(self, samples: usize) -> Result<Limiter, Refusal>
        ensures { result ≡ handed (changed self samples).reply (changed self samples).limiter }
    {
        check(frames::is_samples(samples), self.passes(), true, true)?;
        let estimator = self.estimator.set_samples_per_channel(samples)?;
        Ok(Limiter { estimator, ..self })
    }

    // The limiter with its envelope at 0; the carried factor and the counts stay. Refused with 4.
    pub fn reset(self) -> Result<Limiter, Refusal>
        ensures { result ≡ handed (cleared self).reply (cleared self).limiter }
    {
        check(true, self.passes(), true, true)?;
        let silent = self.estimator.reset()?;
        Ok(Limiter {
            estimator: silent,
            ..self
        })
    }

    // The envelope's last value; a state that fails its test is refused with 4.
    pub fn last_audio_level(self) -> Result<LinearS16, Refusal>
        ensures { result ≡ handed (heard self).reply (heard self).level }
    {
        let ok = self.passes();
        check(true, ok, true, true)?;
        self.estimator.last_audio_level()
    }
}
