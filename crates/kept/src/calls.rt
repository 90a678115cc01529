// The calls of the library over states that are handed in and out whole. The exported functions lend them.

ghost use Rattle.std.specs.Prelude.{◌≡◌, false, true, ◌&&◌, eqb, OnOk};
ghost use Rattle.units.specs.Handed.{number_of as number_of_refusal};
ghost use Rattle.units.specs.Replies.{refusal};
ghost use Rattle.frames.specs.Shape.{is_shape};
ghost use Rattle.limiter.specs.Scale.{FullScale};
ghost use Rattle.chain.specs.Answer.{said, non_speech};
ghost use Rattle.chain.specs.Calls.{nothing_published};
ghost use Rattle.kept.specs.States.{none_limiter, none_chain};
ghost use Rattle.kept.specs.Calls.{limiter_made, limiter_stepped, limiter_read, chain_made, kept_answer, chain_stepped, chain_gapped, kept_published, chain_read, told_limiter, told_level, told_chain, told_step, told_published};

use crate::states::{KeptChain, KeptLimiter};
use chain::{Answer, Chain};
use limiter::Limiter;
use units::figures::Figures;
use units::kinds::{Db, Dbfs, LinearS16};
use units::refusals::Refusal;
use units::settings::Settings;

// What a frame was: 0 no speech, 1 speech that waits, with the number of frames that are missing, 2 speech
// that is published, with its level and headroom. What does not belong to the kind is 0.
#[repr(C)]
#[derive(Clone, Copy)]
pub struct KeptAnswer {
    pub kind: u32,
    pub missing: u32,
    pub level: Dbfs,
    pub headroom: Db,
}

// What a chain publishes: the level of the speech, the headroom, the gain, and 1 where the level is trusted,
// otherwise 0.
#[repr(C)]
#[derive(Clone, Copy)]
pub struct Published {
    pub level: Dbfs,
    pub headroom: Db,
    pub gain: Db,
    pub confident: u32,
}

// What a frame was, and the chain that goes on.
#[derive(Clone, Copy)]
pub struct Stepped {
    pub answer: KeptAnswer,
    pub chain: KeptChain,
}

// A new limiter for channels of so many samples; refused with 1 where no frame has so many.
pub fn make_limiter(samples: usize) -> Result<KeptLimiter, Refusal>
    ensures { told_limiter none_limiter result ≡ limiter_made samples }
{
    let limiter = Limiter::new(samples)?;
    Ok(KeptLimiter::from(limiter))
}

// The refusal of a frame whose state is none: 1 where its shape is none or its samples are not those that were set,
// otherwise 4.
#[tactic(auto, unfolding(units::specs::Handed::number_of, units::specs::Replies::refusal))]
fn refuse_state(channels: usize, samples: usize, length: usize, set: usize) -> Refusal
    ensures { number_of_refusal result ≡ refusal (is_shape channels samples length && eqb samples set) false true true }
{
    let shape = frames::is_shape(channels, samples, length) & (samples == set);
    if shape {
        Refusal::Setting
    } else {
        Refusal::Shape
    }
}

// Limits a frame where it stands; refused with 1, 4 or 3, and then the frame stays as it is.
pub fn limit_frame(
    kept: KeptLimiter,
    frame: &mut [f32],
    channels: usize,
    samples: usize,
) -> Result<KeptLimiter, Refusal>
    ensures value { told_limiter kept result ≡ (limiter_stepped kept frame.old channels samples).next }
    ensures frame_after { frame.new ≡ (limiter_stepped kept frame.old channels samples).frame }
    ensures scale { OnOk result (FullScale frame.new) }
{
    if kept.is_sound() {
        let limiter = kept.limiter();
        let after = limiter.process(frame, channels, samples)?;
        Ok(KeptLimiter::from(after))
    } else {
        let set = kept.estimator.samples as usize;
        Err(refuse_state(channels, samples, frame.len(), set))
    }
}

// The envelope's last value; a state that fails its test is refused with 4.
pub fn read_limiter(kept: KeptLimiter) -> Result<LinearS16, Refusal>
    ensures { told_level result ≡ limiter_read kept }
{
    let sound = kept.sound()?;
    let limiter = sound.limiter();
    limiter.last_audio_level()
}

// A new chain for channels of so many samples, whose protector remembers as many peaks as the capacity says. Samples that
// are no shape's are refused with 1, then settings, a threshold or a capacity (1 to 16) out of their ranges with 4.
pub fn make_chain(
    settings: Settings,
    threshold: u32,
    samples: usize,
    capacity: u32,
) -> Result<KeptChain, Refusal>
    ensures { told_chain none_chain result ≡ chain_made settings threshold samples capacity }
{
    let chain = Chain::new(settings, threshold, samples, capacity)?;
    Ok(KeptChain::from(chain))
}

impl KeptAnswer {
    // All 0: what is told of a frame that is refused, as of one that is no speech.
    #[tactic(auto, unfolding(crate::specs::Calls::kept_answer))]
    pub fn none() -> KeptAnswer
        ensures { result ≡ kept_answer non_speech }
    {
        KeptAnswer {
            kind: 0,
            missing: 0,
            level: Dbfs(0.0),
            headroom: Db(0.0),
        }
    }
}

// An answer as numbers.
impl From<Answer> for KeptAnswer {
    ghost from_gives = { λ answer k. k ≡ kept_answer (said answer) };

    #[tactic(auto, unfolding(crate::specs::Calls::kept_answer, chain::specs::Answer::said))]
    fn from(answer: Answer) -> KeptAnswer {
        match answer {
            Answer::NonSpeech => KeptAnswer::none(),
            Answer::Waiting(missing) => KeptAnswer {
                kind: 1,
                missing,
                level: Dbfs(0.0),
                headroom: Db(0.0),
            },
            Answer::Publishing(level, headroom) => KeptAnswer {
                kind: 2,
                missing: 0,
                level,
                headroom,
            },
        }
    }
}

// Takes a frame with its figures; refused with 1, 4, 2 or 3, and then the frame stays as it is.
pub fn take_frame(
    kept: KeptChain,
    figures: Figures,
    frame: &mut [f32],
    channels: usize,
    samples: usize,
) -> Result<Stepped, Refusal>
    ensures value { told_step kept result ≡ (chain_stepped kept figures frame.old channels samples).next }
    ensures frame_after { frame.new ≡ (chain_stepped kept figures frame.old channels samples).frame }
    ensures scale { OnOk result (FullScale frame.new) }
{
    if kept.is_sound() {
        let chain = kept.chain();
        let next = chain.step(figures, frame, channels, samples)?;
        let answer = KeptAnswer::from(next.answer);
        let after = KeptChain::from(next.chain);
        Ok(Stepped {
            answer,
            chain: after,
        })
    } else {
        let set = kept.limiter.estimator.samples as usize;
        Err(refuse_state(channels, samples, frame.len(), set))
    }
}

// Marks a gap: frames were lost, so that those before it and after it are not adjacent. A state that fails its test is
// refused with 4.
pub fn mark_gap(kept: KeptChain) -> Result<KeptChain, Refusal>
    ensures { told_chain kept result ≡ chain_gapped kept }
{
    let sound = kept.sound()?;
    let chain = sound.chain();
    let after = chain.gap()?;
    Ok(KeptChain::from(after))
}

impl Published {
    // All 0: what stands where nothing is published.
    #[tactic(auto, unfolding(crate::specs::Calls::kept_published, crate::specs::States::number_of))]
    pub fn none() -> Published
        ensures { result ≡ kept_published nothing_published }
    {
        Published {
            level: Dbfs(0.0),
            headroom: Db(0.0),
            gain: Db(0.0),
            confident: 0,
        }
    }
}

// What a chain publishes, with a number for the flag.
impl From<chain::Published> for Published {
    ghost from_gives = { λ published k. k ≡ kept_published published };

    #[tactic(auto, using(crate::proofs::Flags::flag_number), unfolding(crate::specs::Calls::kept_published))]
    fn from(published: chain::Published) -> Published {
        let level = published.level;
        let headroom = published.headroom;
        let gain = published.gain;
        Published {
            level,
            headroom,
            gain,
            confident: u32::from(published.confident),
        }
    }
}

// What a chain publishes; a state that fails its test is refused with 4.
pub fn read_chain(kept: KeptChain) -> Result<Published, Refusal>
    ensures { told_published result ≡ chain_read kept }
{
    let sound = kept.sound()?;
    let chain = sound.chain();
    let published = chain.published()?;
    Ok(Published::from(published))
}
