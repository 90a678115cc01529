// The whole box: the level of the speech, the headroom, the gain and the limiter, in that order, over one
// frame of sound and five figures that were metered of it.

#![tactic(auto)]

ghost use Rattle.std.specs.Prelude.{◌≡◌, true, length, OnOk};
ghost use Rattle.units.specs.Handed.{handed};
ghost use Rattle.units.specs.Replies.{done, refusal};
ghost use Rattle.gain_applier.specs.Range.{Held};
ghost use Rattle.limiter.specs.Scale.{FullScale};
ghost use Rattle.chain.specs.Chain.{passes};
ghost use Rattle.chain.specs.Answer.{answer_of, said};
ghost use Rattle.chain.specs.Calls.{nothing, made, told, called, gap, samples_told, published_told};
ghost use Rattle.chain.specs.Held.{HeldChain, HeldFigures};
ghost use Rattle.chain.specs.Laws.Calls.{early};

use adaptive_digital_gain_controller::{Controller, Info};
use limiter::Limiter;
use saturation_protector::Protector;
use saturation_protector_buffer::is_capacity;
use speech_level_estimator::Estimator;
use units::figures::Figures;
use units::kinds::{Db, Dbfs};
use units::refusals::{Refusal, check};
use units::settings::Settings;

// The headroom that a chain starts with.
const INITIAL: f32 = 20.0;

// The four parts.
#[derive(Clone, Copy)]
pub struct Chain {
    pub estimator: Estimator,
    pub protector: Protector,
    pub controller: Controller,
    pub limiter: Limiter,
}

// What a frame was to the chain: no speech; speech of a run that still misses so many frames; or speech
// whose level and headroom are published.
#[derive(Clone, Copy)]
pub enum Answer {
    NonSpeech,
    Waiting(u32),
    Publishing(Dbfs, Db),
}

// What a frame was, and the chain that goes on from there.
#[derive(Clone, Copy)]
pub struct Next {
    pub answer: Answer,
    pub chain: Chain,
}

// What a chain publishes: the level of the speech, the headroom, the gain, and whether the level is trusted.
#[derive(Clone, Copy)]
pub struct Published {
    pub level: Dbfs,
    pub headroom: Db,
    pub gain: Db,
    pub confident: bool,
}

// What a frame was, by the run of adjacent speech frames after it: a run below the threshold misses what the
// threshold has more, and one that has reached it publishes.
#[tactic(auto, unfolding(crate::specs::Answer::said, crate::specs::Answer::answer_of))]
fn answer_of(speech: bool, threshold: u32, count: u32, level: f32, headroom: f32) -> Answer
    ensures { said result ≡ answer_of speech threshold count level headroom }
{
    if speech {
        if threshold <= count {
            Answer::Publishing(Dbfs(level), Db(headroom))
        } else {
            Answer::Waiting(threshold - count)
        }
    } else {
        Answer::NonSpeech
    }
}

// Takes a frame that is refused for its samples or not at all: the level of the speech is heard first, then the
// headroom by that level; the controller is told both and puts the gain on the frame, and what comes last is the limiter.
// The controller looks at every sample, and refuses a frame that has a bad one. No other part refuses what comes here.
fn take(
    last: Chain,
    figures: Figures,
    frame: &mut [f32],
    channels: usize,
    samples: usize,
) -> Result<Next, Refusal>
    requires tests { early last figures (length frame.old) channels samples ≡ done }
    requires numbers { HeldChain last }
    requires figure_numbers { HeldFigures figures }
    requires sound { Held frame.old }
    ensures result_value { told last result ≡ (called last figures frame.old channels samples).told }
    ensures frame_after { frame.new ≡ (called last figures frame.old channels samples).frame }
    ensures scale { OnOk result (FullScale frame.new) }
{
    let estimator = last.estimator;
    let protector = last.protector;
    let controller = last.controller;
    let limiter = last.limiter;
    let probability = figures.probability;
    let peak = figures.peak;
    let spoken = estimator.update(figures.rms, probability)?;
    let level = Dbfs(spoken.level);
    let safe = protector.analyze(probability, peak, level)?;
    let info = Info {
        probability,
        level,
        reliable: spoken.confident,
        noise: figures.noise,
        headroom: Db(safe.headroom),
        envelope: figures.envelope,
    };
    let levelled = controller.process(info, frame, channels, samples)?;
    let limited = limiter.process(frame, channels, samples)?;
    let speech = runs::is_speech(probability);
    let answer = answer_of(
        speech,
        spoken.threshold,
        spoken.count,
        spoken.level,
        safe.headroom,
    );
    Ok(Next {
        answer,
        chain: Chain {
            estimator: spoken,
            protector: safe,
            controller: levelled,
            limiter: limited,
        },
    })
}

impl Chain {
    // A new chain for channels of so many samples, whose protector remembers as many peaks as the capacity says.
    // Samples that are no shape's are refused with 1, then settings out of their ranges, a threshold that is not from
    // 1 to the largest and a capacity that is not from 1 to 16 with 4.
    pub fn new(
        settings: Settings,
        threshold: u32,
        samples: usize,
        capacity: u32,
    ) -> Result<Chain, Refusal>
        ensures { result ≡ handed (made settings threshold samples capacity).reply (made settings threshold samples capacity).chain }
    {
        let shape = frames::is_samples(samples);
        let setting = settings.accepted()
            & units::settings::is_threshold(threshold)
            & is_capacity(capacity);
        check(shape, setting, true, true)?;
        // No part refuses what has passed here.
        let estimator = Estimator::new(settings, threshold)?;
        let protector = Protector::new(Db(INITIAL), threshold, capacity)?;
        let controller = Controller::new(settings, threshold)?;
        let limiter = Limiter::new(samples)?;
        Ok(Chain {
            estimator,
            protector,
            controller,
            limiter,
        })
    }

    // All 0, false and identity: what stands where there is no chain. Every call refuses it.
    #[tactic(auto, unfolding(crate::specs::Calls::nothing))]
    pub fn none() -> Chain
        ensures { result ≡ nothing }
    {
        let estimator = Estimator::none();
        let protector = Protector::none();
        let controller = Controller::none();
        let limiter = Limiter::none();
        Chain {
            estimator,
            protector,
            controller,
            limiter,
        }
    }

    // Whether a handed-in chain passes: each part does, they are alike in threshold and settings, and the
    // initial headroom is 20.
    // Written into its callers, it copies no chain.
    #[inline(always)]
    pub fn passes(self) -> bool
        ensures { result ≡ passes self }
    {
        let estimator = self.estimator;
        let protector = self.protector;
        let controller = self.controller;
        let limiter = self.limiter;
        let mine = estimator.settings;
        let theirs = controller.settings;
        estimator.passes()
            & protector.passes()
            & controller.passes()
            & limiter.passes()
            & (estimator.threshold == protector.threshold)
            & (estimator.threshold == controller.threshold)
            & (mine == theirs)
            & (protector.initial == INITIAL)
    }

    // The chain itself, where it passes; otherwise it is refused with 4.
    // Written into its callers, it copies no chain.
    #[inline(always)]
    #[tactic(auto, unfolding(units::specs::Handed::handed, units::specs::Replies::refusal))]
    fn passed(self) -> Result<Chain, Refusal>
        ensures { result ≡ handed (refusal true (passes self) true true) self }
    {
        check(true, self.passes(), true, true)?;
        Ok(self)
    }

    // What a chain publishes. A state that fails its test is refused with 4.
    #[tactic(auto, unfolding(crate::specs::Calls::published_told, units::specs::Handed::handed, units::specs::Replies::refusal))]
    pub fn published(self) -> Result<Published, Refusal>
        ensures { result ≡ handed (published_told self).reply (published_told self).published }
    {
        let chain = self.passed()?;
        Ok(Published {
            level: Dbfs(chain.estimator.level),
            headroom: Db(chain.protector.headroom),
            gain: Db(chain.controller.gain),
            confident: chain.estimator.confident,
        })
    }

    // The samples of a channel that the chain was made for. A state that fails its test is refused with 4.
    #[tactic(auto, unfolding(crate::specs::Calls::samples_told, units::specs::Handed::handed, units::specs::Replies::refusal))]
    pub fn samples(self) -> Result<usize, Refusal>
        ensures { result ≡ handed (samples_told self).reply (samples_told self).samples }
    {
        let last = self.passed()?;
        Ok(last.limiter.estimator.samples)
    }

    // Refuses what a frame is refused for before its samples are looked at.
    #[tactic(auto, unfolding(units::specs::Handed::handed, units::specs::Replies::refusal))]
    fn check(
        self,
        figures: Figures,
        size: usize,
        channels: usize,
        samples: usize,
    ) -> Result<(), Refusal>
        ensures { result ≡ handed (early self figures size channels samples) tt }
    {
        let set = samples == self.limiter.estimator.samples;
        let shape = frames::is_shape(channels, samples, size) & set;
        let state = self.passes();
        let figure = figures.accepted();
        check(shape, state, figure, true)
    }

    // Takes a frame: the level of the speech, then the headroom by it, then the gain by both, which is put on
    // the frame, and last the limiter. Refused with 1, 4, 2 or 3, and then the frame stays as it is.
    pub fn step(
        self,
        figures: Figures,
        frame: &mut [f32],
        channels: usize,
        samples: usize,
    ) -> Result<Next, Refusal>
        ensures result_value { told self result ≡ (called self figures frame.old channels samples).told }
        ensures frame_after { frame.new ≡ (called self figures frame.old channels samples).frame }
        ensures scale { OnOk result (FullScale frame.new) }
    {
        self.check(figures, frame.len(), channels, samples)?;
        take(self, figures, frame, channels, samples)
    }

    // Marks a gap: frames were lost, so that those before it and after it are not adjacent. It ends the run of
    // speech as a frame that is not speech does, and all of the adjacent speech frames are to come again before
    // the gain may rise. It has no sound: the gain and the limiter stay. A chain that fails its test is refused
    // with 4.
    #[tactic(auto, unfolding(crate::specs::Calls::gap, units::specs::Handed::handed, units::specs::Replies::refusal))]
    pub fn gap(self) -> Result<Chain, Refusal>
        ensures { result ≡ handed (gap self).reply (gap self).chain }
    {
        let before = self.passed()?;
        // No part of a chain that passes refuses a gap.
        let closed = before.estimator.gap()?;
        let shut = before.protector.gap()?;
        let waits = before.controller.gap()?;
        Ok(Chain {
            estimator: closed,
            protector: shut,
            controller: waits,
            limiter: before.limiter,
        })
    }
}
