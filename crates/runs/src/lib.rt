// A run of adjacent speech frames: how long it is, and what a frame does to the two states that an
// estimator keeps, a preliminary one and a reliable one.

#![tactic(auto)]

ghost use Rattle.std.specs.Prelude.{◌≡◌};
ghost use Rattle.runs.specs.Runs.{speech, longer, turned};

// The least probability of a speech frame.
pub const SPEECH: f32 = 0.95;

// What a frame does: how long the run is after it, whether the preliminary state is kept as the reliable
// one, whether it is thrown away for the reliable one, and whether results are published.
// Two flags and no enum: the law `turned_framed` chooses each of the two states by a flag of its own.
#[derive(Clone, Copy)]
pub struct Turn {
    pub count: u32,
    pub keep: bool,
    pub throw: bool,
    pub publish: bool,
}

// Whether a frame of this probability is speech. A NaN is not.
pub fn is_speech(probability: f32) -> bool
    ensures { result ≡ speech probability }
{
    SPEECH <= probability
}

// The run with one speech frame more: held at the threshold, and left alone where it is past it.
#[tactic(auto, unfolding(crate::specs::Runs::longer))]
fn longer(threshold: u32, count: u32) -> u32
    ensures { result ≡ longer threshold count }
{
    if count < threshold { count + 1 } else { count }
}

// What a frame does to a run of this many adjacent speech frames.
#[tactic(auto, unfolding(crate::specs::Runs::turned, crate::specs::Runs::published))]
pub fn step(speech: bool, threshold: u32, count: u32) -> Turn
    ensures { result ≡ turned speech threshold count }
{
    let next = longer(threshold, count);
    let two = 1 < threshold;
    Turn {
        count: floats::pick(speech, next, 0),
        keep: !speech & (two & (threshold <= count)),
        throw: !speech & (two & (0 < count) & (count < threshold)),
        publish: speech & (threshold <= next),
    }
}
