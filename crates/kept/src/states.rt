// What a caller in another language keeps: the states of the chain and of the limiter, in C's layout and without a
// hole between the fields, so that every byte of the struct belongs to a field. Each flag is a number, 0 or 1; a
// number that is neither is no state, and its test says so. A number of samples, which the limiter keeps in 64 bits,
// is kept in 32; a state that passes has none that needs more.

ghost use Rattle.std.specs.Prelude.{◌≡◌, true};
ghost use Rattle.units.specs.Handed.{handed};
ghost use Rattle.units.specs.Replies.{refusal};
ghost use Rattle.kept.specs.States.{is_flag, flag_of, narrow, envelope_of, kept_envelope, sound_limiter, limiter_of, kept_limiter, none_limiter, sound_chain, chain_of, kept_chain, none_chain};

use adaptive_digital_gain_controller::Controller;
use chain::Chain;
use gain_applier::Applier;
use interpolated_gain_curve::Curve;
use limiter::Limiter;
use saturation_protector::Protector;
use speech_level_estimator::{Average, Estimator};
use units::refusals::{Refusal, check};
use units::settings::Settings;

// The level of the speech: speech_level_estimator's state.
#[repr(C)]
#[derive(Clone, Copy)]
pub struct KeptLevel {
    pub settings: Settings,
    pub threshold: u32,
    pub initial: f32,
    pub preliminary: Average,
    pub reliable: Average,
    pub level: f32,
    pub confident: u32,
    pub count: u32,
}

// The gain on its way: gain_applier's state.
#[repr(C)]
#[derive(Clone, Copy)]
pub struct KeptApplier {
    pub clip: u32,
    pub last: f32,
    pub current: f32,
    pub samples: i32,
    pub inverse: f32,
}

// The gain: adaptive_digital_gain_controller's state.
#[repr(C)]
#[derive(Clone, Copy)]
pub struct KeptController {
    pub applier: KeptApplier,
    pub settings: Settings,
    pub threshold: u32,
    pub change: f32,
    pub waiting: u32,
    pub gain: f32,
}

// The gain curve's counts: interpolated_gain_curve's state.
#[repr(C)]
#[derive(Clone, Copy)]
pub struct KeptCurve {
    pub identity: u64,
    pub knee: u64,
    pub limiter: u64,
    pub saturation: u64,
    pub available: u32,
    pub region: u32,
    pub duration: i64,
}

// The envelope: fixed_digital_level_estimator's state.
#[repr(C)]
#[derive(Clone, Copy)]
pub struct KeptEnvelope {
    pub level: f32,
    pub samples: u32,
    pub part: u32,
}

// The limiter's state. The carried factor stands before the curve, whose numbers of 64 bits then need no hole.
#[repr(C)]
#[derive(Clone, Copy)]
pub struct KeptLimiter {
    pub estimator: KeptEnvelope,
    pub carried: f32,
    pub curve: KeptCurve,
}

// The chain's state.
#[repr(C)]
#[derive(Clone, Copy)]
pub struct KeptChain {
    pub estimator: KeptLevel,
    pub protector: Protector,
    pub controller: KeptController,
    pub limiter: KeptLimiter,
}

// Whether a number is a flag.
#[tactic(auto, unfolding(crate::specs::States::is_flag))]
fn is_flag(n: u32) -> bool
    ensures { result ≡ is_flag n }
{
    n <= 1
}

// The flag of a number: whether it is 1.
#[tactic(auto, unfolding(crate::specs::States::flag_of))]
fn flag_of(n: u32) -> bool
    ensures { result ≡ flag_of n }
{
    n == 1
}

// The last 32 bits of a number: the number itself where it has no more.
#[tactic(auto, unfolding(crate::specs::States::narrow))]
fn narrow(n: usize) -> u32
    ensures { result ≡ narrow n }
{
    (n % 4294967296) as u32
}

impl KeptEnvelope {
    // The envelope's estimator that is kept.
    #[tactic(auto, unfolding(crate::specs::States::envelope_of))]
    fn estimator(self) -> fixed_digital_level_estimator::Estimator
        ensures { result ≡ envelope_of self }
    {
        fixed_digital_level_estimator::Estimator {
            level: self.level,
            samples: self.samples as usize,
            part: self.part as usize,
        }
    }
}

// What is kept of an envelope's estimator.
impl From<fixed_digital_level_estimator::Estimator> for KeptEnvelope {
    ghost from_gives = { λ whole k. k ≡ kept_envelope whole };

    #[tactic(auto, unfolding(crate::specs::States::kept_envelope))]
    fn from(estimator: fixed_digital_level_estimator::Estimator) -> KeptEnvelope {
        KeptEnvelope {
            level: estimator.level,
            samples: narrow(estimator.samples),
            part: narrow(estimator.part),
        }
    }
}

// No TryFrom gives a limiter or a chain back: a step reads the samples of a state whose flags are no flags too, since 1 comes
// before 4, so the test and what is kept stand apart.
impl KeptLimiter {
    // All 0: what stands where there is no limiter. Every call refuses it.
    #[tactic(auto, unfolding(crate::specs::States::none_limiter))]
    pub fn none() -> KeptLimiter
        ensures { result ≡ none_limiter }
    {
        let limiter = Limiter::none();
        KeptLimiter::from(limiter)
    }

    // Whether each number that stands for a flag is one.
    #[tactic(auto, unfolding(crate::specs::States::sound_limiter))]
    pub(crate) fn is_sound(self) -> bool
        ensures { result ≡ sound_limiter self }
    {
        let curve = self.curve;
        is_flag(curve.available)
    }

    // The state itself, where each number that stands for a flag is one; otherwise it is refused with 4.
    // Written into its callers, it copies no state.
    #[inline(always)]
    #[tactic(auto, unfolding(units::specs::Handed::handed, units::specs::Replies::refusal))]
    pub(crate) fn sound(self) -> Result<KeptLimiter, Refusal>
        ensures { result ≡ handed (refusal true (sound_limiter self) true true) self }
    {
        check(true, self.is_sound(), true, true)?;
        Ok(self)
    }

    // The limiter that is kept: a number that is no flag counts as false.
    pub(crate) fn limiter(self) -> Limiter
        ensures { result ≡ limiter_of self }
    {
        let kept = self.estimator;
        let estimator = kept.estimator();
        let curve = self.curve;
        let available = flag_of(curve.available);
        Limiter {
            estimator,
            curve: Curve {
                identity: curve.identity,
                knee: curve.knee,
                limiter: curve.limiter,
                saturation: curve.saturation,
                available,
                region: curve.region,
                duration: curve.duration,
            },
            carried: self.carried,
        }
    }
}

// What is kept of a limiter.
impl From<Limiter> for KeptLimiter {
    ghost from_gives = { λ whole k. k ≡ kept_limiter whole };

    fn from(limiter: Limiter) -> KeptLimiter {
        let whole = limiter.estimator;
        let estimator = KeptEnvelope::from(whole);
        let curve = limiter.curve;
        let available = u32::from(curve.available);
        KeptLimiter {
            estimator,
            carried: limiter.carried,
            curve: KeptCurve {
                identity: curve.identity,
                knee: curve.knee,
                limiter: curve.limiter,
                saturation: curve.saturation,
                available,
                region: curve.region,
                duration: curve.duration,
            },
        }
    }
}

impl KeptChain {
    // All 0: what stands where there is no chain. Every call refuses it.
    #[tactic(auto, unfolding(crate::specs::States::none_chain))]
    pub fn none() -> KeptChain
        ensures { result ≡ none_chain }
    {
        let chain = Chain::none();
        KeptChain::from(chain)
    }

    // Whether each number that stands for a flag is one.
    #[tactic(auto, unfolding(crate::specs::States::sound_chain))]
    pub(crate) fn is_sound(self) -> bool
        ensures { result ≡ sound_chain self }
    {
        let estimator = self.estimator;
        let controller = self.controller;
        let applier = controller.applier;
        let limiter = self.limiter;
        is_flag(estimator.confident) & is_flag(applier.clip) & limiter.is_sound()
    }

    // The state itself, where each number that stands for a flag is one; otherwise it is refused with 4.
    // Written into its callers, it copies no state.
    #[inline(always)]
    #[tactic(auto, unfolding(units::specs::Handed::handed, units::specs::Replies::refusal))]
    pub(crate) fn sound(self) -> Result<KeptChain, Refusal>
        ensures { result ≡ handed (refusal true (sound_chain self) true true) self }
    {
        check(true, self.is_sound(), true, true)?;
        Ok(self)
    }

    // The chain that is kept: a number that is no flag counts as false.
    pub(crate) fn chain(self) -> Chain
        ensures { result ≡ chain_of self }
    {
        let level = self.estimator;
        let settings = level.settings;
        let preliminary = level.preliminary;
        let reliable = level.reliable;
        let confident = flag_of(level.confident);
        let protector = self.protector;
        let gain = self.controller;
        let set = gain.settings;
        let applier = gain.applier;
        let clip = flag_of(applier.clip);
        let kept = self.limiter;
        let limiter = kept.limiter();
        Chain {
            estimator: Estimator {
                settings,
                threshold: level.threshold,
                initial: level.initial,
                preliminary,
                reliable,
                level: level.level,
                confident,
                count: level.count,
            },
            protector,
            controller: Controller {
                applier: Applier {
                    clip,
                    last: applier.last,
                    current: applier.current,
                    samples: applier.samples,
                    inverse: applier.inverse,
                },
                settings: set,
                threshold: gain.threshold,
                change: gain.change,
                waiting: gain.waiting,
                gain: gain.gain,
            },
            limiter,
        }
    }
}

// What is kept of a chain.
impl From<Chain> for KeptChain {
    ghost from_gives = { λ whole k. k ≡ kept_chain whole };

    fn from(chain: Chain) -> KeptChain {
        let level = chain.estimator;
        let settings = level.settings;
        let preliminary = level.preliminary;
        let reliable = level.reliable;
        let confident = u32::from(level.confident);
        let protector = chain.protector;
        let gain = chain.controller;
        let set = gain.settings;
        let applier = gain.applier;
        let clip = u32::from(applier.clip);
        let whole = chain.limiter;
        let limiter = KeptLimiter::from(whole);
        KeptChain {
            estimator: KeptLevel {
                settings,
                threshold: level.threshold,
                initial: level.initial,
                preliminary,
                reliable,
                level: level.level,
                confident,
                count: level.count,
            },
            protector,
            controller: KeptController {
                applier: KeptApplier {
                    clip,
                    last: applier.last,
                    current: applier.current,
                    samples: applier.samples,
                    inverse: applier.inverse,
                },
                settings: set,
                threshold: gain.threshold,
                change: gain.change,
                waiting: gain.waiting,
                gain: gain.gain,
            },
            limiter,
        }
    }
}
