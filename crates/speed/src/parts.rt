// Each part over as many frames as asked. A part that is added has a function here, a line in `work` and its twin
// in oracle/speed.

use crate::sound;
use crate::sound::Tape;
use adaptive_digital_gain_controller::{Controller, Info};
use chain::Chain;
use fixed_digital_level_estimator::Estimator;
use gain_applier::Applier;
use interpolated_gain_curve::Curve;
use limiter::Limiter;
use saturation_protector::Protector;
use speech_level_estimator::Estimator as SpeechLevel;
use units::figures::Figures;
use units::kinds::{Db, Dbfs, LinearS16};
use units::refusals::Refusal;
use units::settings::Settings;

// How many adjacent speech frames a run needs to count, the headroom to start with, and how many peaks the ring holds: the
// Rust's own.
const THRESHOLD: u32 = 12;

const INITIAL: f32 = 20.0;

const RING: u32 = 4;

// What is asked: the part, the sound, the channels, the samples of each, and the frames. All of them
// are read when the program runs, so that no part is compiled for one size.
#[derive(Clone, Copy)]
pub struct Ask {
    pub part: u32,
    pub sound: u32,
    pub channels: usize,
    pub samples: usize,
    pub frames: u32,
}

// The digest of all that was made, and whether a frame was refused.
#[derive(Clone, Copy)]
pub struct Outcome {
    pub digest: u32,
    pub refused: bool,
}

impl Outcome {
    // The digest with some more floats.
    fn with(self, list: &[f32]) -> Outcome {
        Outcome {
            digest: sound::digest(self.digest, list),
            refused: self.refused,
        }
    }
}

// The parts' numbers.
const SPEECH_LEVEL: u32 = 1;

const HEADROOM: u32 = 2;

const CONTROLLER: u32 = 3;

const ENVELOPE: u32 = 4;

const APPLIER_ONE: u32 = 5;

const APPLIER_EQUAL: u32 = 6;

const APPLIER_RAMP: u32 = 7;

const APPLIER_CLIP: u32 = 8;

const CURVE: u32 = 9;

const LIMITER: u32 = 10;

const CHAIN: u32 = 11;

// Runs a part over the frames: the digest takes what became of the frame before, the frame and its figures are made
// anew, and the part does its work on them. What comes of it is the digest before the last frame, and whether the part
// refused any.
fn over<F: FnMut(&mut [f32], Tape, u32) -> Result<(), Refusal>>(
    frame: &mut [f32],
    ask: Ask,
    mut work: F,
) -> Outcome
    requires { F.IsAlwaysCallable work }
{
    let mut tape = sound::start();
    let mut refused = false;
    for number in 0..ask.frames {
        tape = sound::turn(frame, tape, ask.sound, number);
        refused |= work(frame, tape, number).is_err();
    }
    Outcome {
        digest: tape.digest,
        refused,
    }
}

// Only the frame, the figures and the digest: what each of the others has besides its own work.
fn nothing(frame: &mut [f32], ask: Ask) -> Outcome {
    over(frame, ask, |_, _, _| Ok(()))
}

// Three parts, whose own work takes a few hundred instructions, have the loop of `over` themselves: through a closure
// their state is copied once more in each frame, which was measured as 28, 52 and 15 instructions, 7 to 16 %.

// The level of the speech. The digest ends with it.
fn hear(frame: &mut [f32], ask: Ask) -> Outcome {
    let new = SpeechLevel::new(Settings::usual(), THRESHOLD);
    let mut estimator = new.unwrap_or(SpeechLevel::none());
    let mut tape = sound::start();
    let mut refused = false;
    for number in 0..ask.frames {
        tape = sound::turn(frame, tape, ask.sound, number);
        match estimator.update(tape.figures.rms, tape.figures.probability) {
            Ok(after) => estimator = after,
            Err(_) => refused = true,
        }
    }
    let digest = tape.digest;
    let made = Outcome { digest, refused };
    made.with(&[estimator.level])
}

// The headroom by the recent peaks, with their ring. The digest ends with it.
fn protect(frame: &mut [f32], ask: Ask) -> Outcome {
    let new = Protector::new(Db(INITIAL), THRESHOLD, RING);
    let mut protector = new.unwrap_or(Protector::none());
    let mut tape = sound::start();
    let mut refused = false;
    for number in 0..ask.frames {
        tape = sound::turn(frame, tape, ask.sound, number);
        let figures = tape.figures;
        match protector.analyze(figures.probability, figures.peak, figures.rms) {
            Ok(after) => protector = after,
            Err(_) => refused = true,
        }
    }
    let digest = tape.digest;
    let made = Outcome { digest, refused };
    made.with(&[protector.headroom])
}

// What the controller is told of a frame: its figures, with a headroom from 12 to 20, and a level that is trusted in
// every second eight frames.
fn info(figures: Figures, number: u32) -> Info {
    Info {
        probability: figures.probability,
        level: figures.rms,
        reliable: number % 16 < 8,
        noise: figures.noise,
        headroom: Db(figures.probability * 8.0 + 12.0),
        envelope: figures.envelope,
    }
}

// The gain controller.
fn control(frame: &mut [f32], ask: Ask) -> Outcome {
    let new = Controller::new(Settings::usual(), THRESHOLD);
    let mut controller = new.unwrap_or(Controller::none());
    over(frame, ask, |frame, tape, number| {
        let known = info(tape.figures, number);
        controller = controller.process(known, frame, ask.channels, ask.samples)?;
        Ok(())
    })
}

// The level estimator. The digest ends with the twenty levels of the last frame: 0 where all frames are refused.
fn estimate(frame: &mut [f32], ask: Ask) -> Outcome {
    let mut estimator = Estimator::new(ask.samples).unwrap_or(Estimator::none());
    let mut levels = [LinearS16(0.0); 20];
    let made = over(frame, ask, |frame, _, _| {
        let found = estimator.compute_level(frame, ask.channels, ask.samples)?;
        let envelope = found.envelope;
        estimator = found.estimator;
        levels = envelope;
        Ok(())
    });
    made.with(&levels.map(|level| level.0))
}

// The gain applier at a gain that stays.
fn apply(frame: &mut [f32], ask: Ask, factor: f32) -> Outcome {
    let mut applier = Applier::new(false, factor).unwrap_or(Applier::none());
    let made = over(frame, ask, |frame, _, _| {
        applier = applier.apply_gain(frame, ask.channels, ask.samples)?;
        Ok(())
    });
    made.with(&[applier.current])
}

// The gain applier with another gain for each frame, twice the factor and the factor in turn.
fn ramp(frame: &mut [f32], ask: Ask, clip: bool, factor: f32) -> Outcome {
    let mut applier = Applier::new(clip, factor).unwrap_or(Applier::none());
    let made = over(frame, ask, |frame, _, number| {
        let aim = floats::pick(number % 2 == 0, factor + factor, factor);
        applier = applier.set_gain_factor(aim)?;
        applier = applier.apply_gain(frame, ask.channels, ask.samples)?;
        Ok(())
    });
    made.with(&[applier.current])
}

// A curve's count of a region, as a float.
fn count(n: u64) -> f32 {
    (n % 65536) as u16 as f32
}

// The curve, one look-up a frame. The digest ends with the sum of the gains and the counts by region.
fn look_up(frame: &mut [f32], ask: Ask) -> Outcome {
    let mut curve = Curve::new();
    let mut gains = 0.0;
    let mut tape = sound::start();
    let mut refused = false;
    for number in 0..ask.frames {
        tape = sound::turn(frame, tape, ask.sound, number);
        match curve.look_up_gain_to_apply(LinearS16(tape.level)) {
            Ok(looked) => {
                curve = looked.curve;
                gains += looked.gain;
            }
            Err(_) => refused = true,
        }
    }
    let digest = tape.digest;
    let made = Outcome { digest, refused };
    made.with(&[
        gains,
        count(curve.identity),
        count(curve.knee),
        count(curve.limiter),
        count(curve.saturation),
    ])
}

// The limiter. The digest ends with its level.
fn limit(frame: &mut [f32], ask: Ask) -> Outcome {
    let mut limiter = Limiter::new(ask.samples).unwrap_or(Limiter::none());
    let made = over(frame, ask, |frame, _, _| {
        limiter = limiter.process(frame, ask.channels, ask.samples)?;
        Ok(())
    });
    let heard = limiter.last_audio_level();
    made.with(&[heard.map_or(0.0, |level| level.0)])
}

// The chain. The digest ends with its level and its headroom.
fn level(frame: &mut [f32], ask: Ask) -> Outcome {
    let new = Chain::new(Settings::usual(), THRESHOLD, ask.samples, RING);
    let mut leveller = new.unwrap_or(Chain::none());
    let made = over(frame, ask, |frame, tape, _| {
        let next = leveller.step(tape.figures, frame, ask.channels, ask.samples)?;
        leveller = next.chain;
        Ok(())
    });
    made.with(&[leveller.estimator.level, leveller.protector.headroom])
}

// The part that is asked for, over a frame of its size. Whatever is no part does nothing.
fn work(frame: &mut [f32], ask: Ask) -> Outcome {
    match ask.part {
        SPEECH_LEVEL => hear(frame, ask),
        HEADROOM => protect(frame, ask),
        CONTROLLER => control(frame, ask),
        ENVELOPE => estimate(frame, ask),
        APPLIER_ONE => apply(frame, ask, 1.0),
        APPLIER_EQUAL => apply(frame, ask, 0.75),
        APPLIER_RAMP => ramp(frame, ask, false, 0.5),
        APPLIER_CLIP => ramp(frame, ask, true, 1.5),
        CURVE => look_up(frame, ask),
        LIMITER => limit(frame, ask),
        CHAIN => level(frame, ask),
        _ => nothing(frame, ask),
    }
}

// What the part that is asked for makes, the last frame included.
pub(crate) fn run(frame: &mut [f32], ask: Ask) -> Outcome {
    let made = work(frame, ask);
    made.with(frame)
}
