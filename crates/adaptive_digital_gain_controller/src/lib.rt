// Chooses the gain for a frame of sound and puts it on the frame. The Rust's
// adaptive_digital_gain_controller.

#![tactic(auto)]

ghost use Rattle.std.specs.Prelude.{◌≡◌};
ghost use Rattle.adaptive_digital_gain_controller.specs.Target.{wanted, under_noise, under_envelope, target};
ghost use Rattle.adaptive_digital_gain_controller.specs.Change.{per_frame, waits, increase, changed};
ghost use Rattle.adaptive_digital_gain_controller.specs.Controller.{accepted, nothing, fresh, aimed, decided, passes, interrupted};
ghost use Rattle.adaptive_digital_gain_controller.specs.Calls.{made, processed, gap};
ghost use Rattle.units.specs.Handed.{handed};

use gain_applier::Applier;
use units::kinds::{Db, Dbfs};
use units::refusals::{Refusal, check};
use units::settings::Settings;

// The limiter's envelope above which a gain that is not trusted is lowered.
const LOUD: f32 = -1.0;

// The largest gain factor that a controller can come to.
const LARGEST: f32 = 355.0;

// What is known of a frame: the probability of speech, the level of the speech and whether it is trusted,
// the level of the noise, the headroom, and the limiter's envelope.
#[derive(Clone, Copy)]
pub struct Info {
    pub probability: f32,
    pub level: Dbfs,
    pub reliable: bool,
    pub noise: Dbfs,
    pub headroom: Db,
    pub envelope: Dbfs,
}

// The applier, the settings, how many adjacent speech frames are asked for before the gain may rise, by
// how many dB it may change in a frame, how many of those frames are still to come, and the gain in dB.
#[derive(Clone, Copy)]
pub struct Controller {
    pub applier: Applier,
    pub settings: Settings,
    pub threshold: u32,
    pub change: f32,
    pub waiting: u32,
    pub gain: f32,
}

// The gain that brings a level to the headroom below full scale, from 0 to the largest gain.
#[tactic(auto, unfolding(crate::specs::Target::wanted))]
fn wanted(level: f32, headroom: f32, largest: f32) -> f32
    ensures { result ≡ wanted level headroom largest }
{
    let boosted = -headroom - level;
    let rest = floats::pick(level < -headroom, boosted, 0.0);
    floats::pick(level < -(headroom + largest), largest, rest)
}

// A gain that does not lift the noise above the loudest that it may be.
#[tactic(auto, unfolding(crate::specs::Target::under_noise))]
fn under_noise(gain: f32, noise: f32, loudest: f32) -> f32
    ensures { result ≡ under_noise gain noise loudest }
{
    floats::smaller(gain, floats::larger(loudest - noise, 0.0))
}

// A gain that, while the level is not trusted, does not bring the limiter's envelope above its bound.
#[tactic(auto, unfolding(crate::specs::Target::under_envelope))]
fn under_envelope(gain: f32, last: f32, envelope: f32, reliable: bool) -> f32
    ensures { result ≡ under_envelope gain last envelope reliable }
{
    let before = envelope - last;
    let lowered = floats::smaller(floats::larger(LOUD - before, 0.0), gain);
    floats::pick(reliable | (envelope <= LOUD), gain, lowered)
}

// By how many dB the gain may change in a frame of 10 ms.
#[tactic(auto, unfolding(crate::specs::Change::per_frame))]
fn per_frame(change: f32) -> f32
    ensures { result ≡ per_frame change }
{
    change * 10.0 / 1000.0
}

// How many adjacent speech frames are still to come after a frame: one less in speech, and all of them
// after any other frame.
#[tactic(auto, unfolding(crate::specs::Change::waits))]
fn waits(speech: bool, threshold: u32, waiting: u32) -> u32
    ensures { result ≡ waits speech threshold waiting }
{
    if speech {
        waiting.saturating_sub(1)
    } else {
        threshold
    }
}

// By how many dB the gain may rise in a frame that ends the waiting: once for each frame that was waited
// for. In any other frame it is the change of one.
#[tactic(auto, unfolding(crate::specs::Change::increase))]
fn increase(first: bool, threshold: u32, change: f32) -> f32
    ensures { result ≡ increase first threshold change }
{
    let faster = change * std::num::nearest_u32_to_f32(threshold);
    floats::pick(first, faster, change)
}

// By how many dB the gain changes: the difference to the target, which is not above 0 while the gain may
// not rise, and never more than what a frame may bring.
#[tactic(auto, unfolding(crate::specs::Change::changed))]
fn changed(target: f32, gain: f32, allowed: bool, most: f32, rise: f32) -> f32
    ensures { result ≡ changed target gain allowed most rise }
{
    let difference = target - gain;
    let due = floats::pick(allowed, difference, floats::smaller(difference, 0.0));
    floats::clamp(due, -most, rise)
}

impl Info {
    // Whether each figure lies in its range.
    #[tactic(auto, unfolding(crate::specs::Controller::accepted))]
    fn accepted(self) -> bool
        ensures { result ≡ accepted self }
    {
        units::figures::is_probability(self.probability)
            & units::figures::is_level(self.level)
            & units::figures::is_level(self.noise)
            & units::figures::is_headroom(self.headroom)
            & units::figures::is_envelope(self.envelope)
    }
}

// The gain that a frame asks for: by its level, then by its noise, then by low confidence.
#[tactic(auto, unfolding(crate::specs::Target::target))]
fn target(settings: Settings, gain: f32, info: Info) -> f32
    ensures { result ≡ target settings gain info }
{
    let level = info.level.0 + info.headroom.0;
    let first = wanted(level, settings.headroom.0, settings.largest.0);
    let second = under_noise(first, info.noise.0, settings.noise.0);
    under_envelope(second, gain, info.envelope.0, info.reliable)
}

// The applier that ends the next frame with the ratio of the gain, where the gain changed.
fn aimed(applier: Applier, change: f32, gain: f32) -> Applier
    ensures { result ≡ aimed applier change gain }
{
    if change != 0.0 {
        // A gain that has no ratio and an applier that fails its test leave the applier as it was.
        match decibels::ratio(Db(gain)) {
            Ok(ratio) => applier.set_gain_factor(ratio).unwrap_or(applier),
            Err(_) => applier,
        }
    } else {
        applier
    }
}

impl Controller {
    // All 0 and false: what stands where there is no controller. It passes no test.
    #[tactic(auto, unfolding(crate::specs::Controller::nothing))]
    pub fn none() -> Controller
        ensures { result ≡ nothing }
    {
        let applier = Applier::none();
        let settings = Settings::unset();
        Controller {
            applier,
            settings,
            threshold: 0,
            change: 0.0,
            waiting: 0,
            gain: 0.0,
        }
    }

    // A new controller at its initial gain. Settings out of their ranges and a threshold that is not from
    // 1 to the largest are refused with 4.
    pub fn new(settings: Settings, threshold: u32) -> Result<Controller, Refusal>
        ensures { result ≡ handed (made settings threshold).reply (made settings threshold).controller }
    {
        let ok = settings.accepted() & units::settings::is_threshold(threshold);
        check(true, ok, true, true)?;
        // An initial gain that is accepted has a ratio, and the ratio is a gain factor.
        let ratio = decibels::ratio(settings.initial)?;
        let applier = Applier::new(false, ratio)?;
        Ok(Controller {
            applier,
            settings,
            threshold,
            change: per_frame(settings.change),
            waiting: threshold,
            gain: settings.initial.0,
        })
    }

    // Whether a handed-in state passes: settings and threshold in their ranges, the change of a frame that
    // the settings give, a waiting count up to the threshold, a gain from 0 to 51, and an applier that
    // passes with factors up to 355.
    #[tactic(auto, unfolding(crate::specs::Controller::passes))]
    pub fn passes(self) -> bool
        ensures { result ≡ passes self }
    {
        self.settings.accepted()
            & units::settings::is_threshold(self.threshold)
            & (self.change == per_frame(self.settings.change))
            & (self.waiting <= self.threshold)
            & units::figures::is_gain(Db(self.gain))
            & self.applier.passes()
            & (self.applier.last <= LARGEST)
            & (self.applier.current <= LARGEST)
    }

    // The controller with the gain that a frame asks for, before the frame is scaled.
    #[tactic(auto, unfolding(crate::specs::Controller::decided))]
    fn decided(self, info: Info) -> Controller
        ensures { result ≡ decided self info }
    {
        let threshold = self.threshold;
        let speech = runs::is_speech(info.probability);
        let waiting = waits(speech, threshold, self.waiting);
        let allowed = waiting == 0;
        let rise = increase(allowed & (0 < self.waiting), threshold, self.change);
        let goal = target(self.settings, self.gain, info);
        let change = changed(goal, self.gain, allowed, self.change, rise);
        let gain = self.gain + change;
        let applier = aimed(self.applier, change, gain);
        Controller {
            applier,
            waiting,
            gain,
            ..self
        }
    }

    // Chooses the gain for a frame, by what is known of it, and puts it on the frame with a ramp where it
    // changed. Refused with 1, 4, 2 or 3, and then the frame stays as it was.
    pub fn process(
        self,
        info: Info,
        frame: &mut [f32],
        channels: usize,
        samples: usize,
    ) -> Result<Controller, Refusal>
        ensures value { result ≡ handed (processed self info frame.old channels samples).next.reply (processed self info frame.old channels samples).next.controller }
        ensures frame_after { frame.new ≡ (processed self info frame.old channels samples).frame }
    {
        let shape = frames::is_shape(channels, samples, frame.len());
        let ok = self.passes();
        let figures = info.accepted();
        check(shape, ok, figures, true)?;
        let next = self.decided(info);
        // The applier looks at every sample, and refuses a frame that has a bad one.
        let applier = next.applier.apply_gain(frame, channels, samples)?;
        Ok(Controller { applier, ..next })
    }

    // Marks a gap: frames were lost, so that those before it and after it are not adjacent. All of the adjacent
    // speech frames are to come again before the gain may rise; the gain and its ramp stay. A state that fails
    // its test is refused with 4.
    #[tactic(auto, unfolding(crate::specs::Calls::gap, units::specs::Handed::handed, units::specs::Replies::refusal))]
    pub fn gap(self) -> Result<Controller, Refusal>
        ensures { result ≡ handed (gap self).reply (gap self).controller }
    {
        check(true, self.passes(), true, true)?;
        Ok(self.interrupted())
    }

    // The controller after a gap.
    #[tactic(auto, unfolding(crate::specs::Controller::interrupted))]
    fn interrupted(self) -> Controller
        ensures { result ≡ interrupted self }
    {
        Controller {
            waiting: self.threshold,
            ..self
        }
    }
}
