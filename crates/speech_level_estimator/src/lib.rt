// The level of the speech, as a weighted average of the levels of speech frames. The Rust's
// speech_level_estimator.

#![tactic(auto)]

ghost use Rattle.std.specs.Prelude.{◌≡◌, true, if◌then◌else◌};
ghost use Rattle.speech_level_estimator.specs.Average.{none, starting, passes, advanced, level};
ghost use Rattle.speech_level_estimator.specs.Estimator.{starting_level, trusted, passes as passes_estimator, nothing, fresh, updated, interrupted};
ghost use Rattle.speech_level_estimator.specs.Calls.{made, stepped, gap, restarted, level_told, confidence_told};
ghost use Rattle.units.specs.Handed.{handed};
ghost use Rattle.units.specs.Replies.{refusal};

use units::kinds::Dbfs;
use units::refusals::{Refusal, check};
use units::settings::Settings;

// How many milliseconds a frame lasts.
const FRAME: u32 = 10;

// For how many milliseconds of speech the estimator is not confident yet.
const CONFIDENT: u32 = 400;

// What is left of the sum and of the weight in each frame, once the estimator is confident: 1 - 1/400.
const LEAK: f32 = 0.9975;

// The ends of a published level.
const LOWEST: f32 = -90.0;

const HIGHEST: f32 = 30.0;

// The headroom that a protector starts with, below zero.
const BELOW: f32 = -20.0;

// A weighted average of levels: how many milliseconds of speech are left until it is trusted, the sum of
// the levels by their weights, and the sum of the weights. The Rust's LevelEstimatorState.
#[repr(C)]
#[derive(Clone, Copy)]
pub struct Average {
    pub left: u32,
    pub sum: f32,
    pub weight: f32,
}

// The settings, how many adjacent speech frames are asked for, the level to start with, the two states,
// the level that is published, whether it is trusted, and how many adjacent speech frames there are.
#[derive(Clone, Copy)]
pub struct Estimator {
    pub settings: Settings,
    pub threshold: u32,
    pub initial: f32,
    pub preliminary: Average,
    pub reliable: Average,
    pub level: f32,
    pub confident: bool,
    pub count: u32,
}

impl Average {
    // The average of a level alone, with the weight 1 and all of the time left.
    #[tactic(auto, unfolding(crate::specs::Average::starting))]
    fn starting(initial: f32) -> Average
        ensures { result ≡ starting initial }
    {
        Average {
            left: CONFIDENT,
            sum: initial,
            weight: 1.0,
        }
    }

    // All 0: what stands in a state that was refused.
    #[tactic(auto, unfolding(crate::specs::Average::none))]
    fn none() -> Average
        ensures { result ≡ none }
    {
        Average {
            left: 0,
            sum: 0.0,
            weight: 0.0,
        }
    }

    // Whether a handed-in average passes: the time from 0 to 400 in tens, the weight from 1 to 450 less
    // the time, and a sum whose magnitude is at most exactly 151 times the weight.
    fn passes(self) -> bool
        ensures { result ≡ passes self }
    {
        let weight = self.weight;
        let most = std::num::nearest_u32_to_f32(450u32.saturating_sub(self.left));
        // In f64 neither the product nor the sum is rounded.
        let sum = std::num::f32_to_f64_with_nan(self.sum);
        let bound = 151.0 * std::num::f32_to_f64_with_nan(weight);
        ((self.left <= CONFIDENT) & (self.left % FRAME == 0))
            & ((1.0 <= weight) & (weight <= most))
            & ((sum <= bound) & (-bound <= sum))
    }

    // The average with one frame more, of this level and this weight. The sum and the weight so far leak
    // once no time is left.
    #[tactic(auto, unfolding(crate::specs::Average::advanced))]
    fn advanced(self, rms: f32, weight: f32) -> Average
        ensures { result ≡ advanced rms weight self }
    {
        let leak = floats::pick(self.left == 0, LEAK, 1.0);
        Average {
            left: self.left.saturating_sub(FRAME),
            sum: self.sum * leak + rms * weight,
            weight: self.weight * leak + weight,
        }
    }

    // The level: the sum by the weight, from -90 to 30.
    #[tactic(auto, unfolding(crate::specs::Average::level))]
    fn level(self) -> f32
        ensures { result ≡ level self }
    {
        floats::clamp(self.sum / self.weight, LOWEST, HIGHEST)
    }
}

// The level to start with: -20 less the initial gain and the headroom, from -90 to 30.
#[tactic(auto, unfolding(crate::specs::Estimator::starting_level))]
fn starting_level(settings: Settings) -> f32
    ensures { result ≡ starting_level settings }
{
    let initial = settings.initial.0;
    let headroom = settings.headroom.0;
    floats::clamp(BELOW - initial - headroom, LOWEST, HIGHEST)
}

// Whether the level is trusted. With a threshold of 1 that is so once the preliminary state has no time
// left; otherwise once the reliable one has none, or the preliminary one of a run that is long enough.
#[tactic(auto, unfolding(crate::specs::Estimator::trusted))]
fn is_trusted(threshold: u32, count: u32, preliminary: u32, reliable: u32) -> bool
    ensures { result ≡ trusted threshold count preliminary reliable }
{
    let first = preliminary == 0;
    let later = (reliable == 0) | ((threshold <= count) & first);
    if threshold == 1 { first } else { later }
}

// The estimator at its start: both states begin with the starting level, which is published.
#[tactic(auto, unfolding(crate::specs::Estimator::fresh))]
fn fresh(settings: Settings, threshold: u32, initial: f32) -> Estimator
    ensures { result ≡ fresh settings threshold initial }
{
    let preliminary = Average::starting(initial);
    let reliable = Average::starting(initial);
    Estimator {
        settings,
        threshold,
        initial,
        preliminary,
        reliable,
        level: initial,
        confident: false,
        count: 0,
    }
}

impl Estimator {
    // A new estimator. Settings out of their ranges and a threshold that is not from 1 to the largest are
    // refused with 4.
    #[tactic(auto, unfolding(crate::specs::Calls::made, units::specs::Handed::handed, units::specs::Replies::refusal))]
    pub fn new(settings: Settings, threshold: u32) -> Result<Estimator, Refusal>
        ensures { result ≡ handed (made settings threshold).reply (made settings threshold).estimator }
    {
        let ok = settings.accepted() & units::settings::is_threshold(threshold);
        check(true, ok, true, true)?;
        let initial = starting_level(settings);
        Ok(fresh(settings, threshold, initial))
    }

    // All 0 and false: what stands where there is no estimator. It passes no test.
    #[tactic(auto, unfolding(crate::specs::Estimator::nothing))]
    pub fn none() -> Estimator
        ensures { result ≡ nothing }
    {
        let settings = Settings::unset();
        let preliminary = Average::none();
        let reliable = Average::none();
        Estimator {
            settings,
            threshold: 0,
            initial: 0.0,
            preliminary,
            reliable,
            level: 0.0,
            confident: false,
            count: 0,
        }
    }

    // Whether a handed-in state passes: settings, threshold and published level in their ranges, the
    // starting level that the settings give, a run no longer than the threshold, and two averages that pass.
    // Written into its callers, as `update` is.
    #[inline(always)]
    #[tactic(auto, unfolding(crate::specs::Estimator::passes))]
    pub fn passes(self) -> bool
        ensures { result ≡ passes_estimator self }
    {
        let settings = self.settings;
        let preliminary = self.preliminary;
        let reliable = self.reliable;
        settings.accepted()
            & units::settings::is_threshold(self.threshold)
            & (self.initial == starting_level(settings))
            & ((LOWEST <= self.level) & (self.level <= HIGHEST))
            & (self.count <= self.threshold)
            & preliminary.passes()
            & reliable.passes()
    }

    // The state itself, where it passes; otherwise it is refused with 4.
    #[tactic(auto, unfolding(units::specs::Handed::handed, units::specs::Replies::refusal))]
    fn passed(self) -> Result<Estimator, Refusal>
        ensures { result ≡ handed (refusal true (passes_estimator self) true true) self }
    {
        check(true, self.passes(), true, true)?;
        Ok(self)
    }

    // Takes a frame's level and its probability, which is its weight. A speech frame advances the
    // preliminary state, and from the threshold on the level is published; any other frame keeps the run
    // or throws it away. Refused with 4 or 2.
    // Written into its callers: otherwise a caller that calls it again and again tests the settings each time.
    #[inline(always)]
    #[tactic(auto, unfolding(crate::specs::Calls::stepped, units::specs::Handed::handed, units::specs::Replies::refusal))]
    pub fn update(self, rms: Dbfs, probability: f32) -> Result<Estimator, Refusal>
        ensures { result ≡ handed (stepped self rms.0 probability).reply (stepped self rms.0 probability).estimator }
    {
        let ok = self.passes();
        let figures = units::figures::is_rms(rms) & units::figures::is_probability(probability);
        check(true, ok, figures, true)?;
        Ok(self.updated(rms.0, probability))
    }

    // The estimator after a frame.
    fn updated(self, rms: f32, probability: f32) -> Estimator
        ensures { result ≡ updated self rms probability }
    {
        let settings = self.settings;
        let threshold = self.threshold;
        let before = self.preliminary;
        let trusted = self.reliable;
        let speech = runs::is_speech(probability);
        let turn = runs::step(speech, threshold, self.count);
        let more = before.advanced(rms, probability);
        let back = floats::pick(turn.throw, trusted, before);
        let preliminary = floats::pick(speech, more, back);
        let reliable = floats::pick(turn.keep, before, trusted);
        let level = floats::pick(turn.publish, preliminary.level(), self.level);
        let confident = is_trusted(threshold, turn.count, preliminary.left, reliable.left);
        Estimator {
            settings,
            threshold,
            initial: self.initial,
            preliminary,
            reliable,
            level,
            confident,
            count: turn.count,
        }
    }

    // Marks a gap: frames were lost, so that those before it and after it are not adjacent. It ends the run as
    // a frame that is not speech does, and publishes nothing. A state that fails its test is refused with 4.
    #[tactic(auto, unfolding(crate::specs::Calls::gap, units::specs::Handed::handed, units::specs::Replies::refusal))]
    pub fn gap(self) -> Result<Estimator, Refusal>
        ensures { result ≡ handed (gap self).reply (gap self).estimator }
    {
        Ok(self.passed()?.interrupted())
    }

    // The estimator after a gap.
    fn interrupted(self) -> Estimator
        ensures { result ≡ interrupted self }
    {
        let settings = self.settings;
        let threshold = self.threshold;
        let before = self.preliminary;
        let trusted = self.reliable;
        let ended = runs::step(false, threshold, self.count);
        let preliminary = floats::pick(ended.throw, trusted, before);
        let reliable = floats::pick(ended.keep, before, trusted);
        let confident = is_trusted(threshold, ended.count, preliminary.left, reliable.left);
        Estimator {
            settings,
            threshold,
            initial: self.initial,
            preliminary,
            reliable,
            level: self.level,
            confident,
            count: ended.count,
        }
    }

    // The estimator at its start again. A state that fails its test is refused with 4.
    #[tactic(auto, unfolding(crate::specs::Calls::restarted, units::specs::Handed::handed, units::specs::Replies::refusal))]
    pub fn reset(self) -> Result<Estimator, Refusal>
        ensures { result ≡ handed (restarted self).reply (restarted self).estimator }
    {
        let before = self.passed()?;
        Ok(fresh(before.settings, before.threshold, before.initial))
    }

    // The published level. A state that fails its test is refused with 4.
    #[tactic(auto, unfolding(crate::specs::Calls::level_told, units::specs::Handed::handed, units::specs::Replies::refusal))]
    pub fn level_dbfs(self) -> Result<Dbfs, Refusal>
        ensures { result ≡ handed (level_told self).reply (level_told self).level }
    {
        Ok(Dbfs(self.passed()?.level))
    }

    // Whether the published level is trusted. A state that fails its test is refused with 4.
    #[tactic(auto, unfolding(crate::specs::Calls::confidence_told, units::specs::Handed::handed, units::specs::Replies::refusal))]
    pub fn is_confident(self) -> Result<bool, Refusal>
        ensures { result ≡ handed (confidence_told self).reply (confidence_told self).confident }
    {
        Ok(self.passed()?.confident)
    }
}
