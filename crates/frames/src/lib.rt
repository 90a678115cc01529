// A frame of sound: one lent f32 buffer, channel after channel. Its shape and its samples are
// tested here; each part that changes samples lends a channel's part on by itself.

#![tactic(auto)]

ghost use Rattle.std.specs.Prelude.{◌≡◌, Bool, T, length, Float};
ghost use Rattle.std.specs.Float.{binary32};
ghost use Rattle.std.specs.Float.Ieee.{fits};
ghost use Rattle.frames.specs.Shape.{is_samples, is_shape};
ghost use Rattle.frames.specs.Samples.{within, all_within};
ghost use Rattle.frames.specs.Refusal.{frame_refusal};
ghost use Rattle.units.specs.Handed.{handed};

use units::refusals::Refusal;

// The largest magnitude of a sample into the controller or the applier.
pub const LARGEST_INPUT: f32 = 65536.0;

// The largest magnitude of a sample into the level estimator or the limiter.
pub const LARGEST_LEVEL: f32 = 33554432.0;

// Their squares.
const INPUT_SQUARE: f32 = 4294967296.0;

const LEVEL_SQUARE: f32 = 1125899906842624.0;

// Whether a channel may have this many samples: 40 to 480, in a multiple of 20.
#[tactic(auto, unfolding(crate::specs::Shape::is_samples))]
pub fn is_samples(samples: usize) -> bool
    ensures { result ≡ is_samples samples }
{
    (40 <= samples) & (samples <= 480) & (samples % 20 == 0)
}

// Whether a buffer of this length holds 1 to 8 channels of such samples, and nothing more.
// Channels and samples stay two parameters beside a frame, here and in each call above: C hands them on one by one, and the
// definitions take them so. With a struct of both each clause would take it apart again, as in
// `processed self frame.old shape.channels shape.samples`.
pub fn is_shape(channels: usize, samples: usize, length: usize) -> bool
    ensures { result ≡ is_shape channels samples length }
{
    let small = (1 <= channels) & (channels <= 8) & is_samples(samples);
    // The product is taken only of numbers that are in their ranges, so that it cannot wrap.
    small && length == channels * samples
}

// Whether each sample of the frame passes a test, which says of a sample whether it is within a bound. It looks at each,
// whatever it finds, so that no branch stands between them.
fn is_each<F: Fn(f32) -> bool>(frame: &[f32], test: F) -> bool
    requires { F.IsAlwaysCallable test }
    ensures { (bound : Float) → ((x : Float) (r : Bool) → T (fits binary32 x) → F.post test x r → r ≡ within bound x) → result ≡ all_within bound frame.now }
{
    let mut ok = true;
    for x in frame {
        ok = ok & test(*x);
    }
    ok
}

// Whether every sample of the frame is a number whose magnitude is at most the bound. The two bounds above are powers of
// two: for them a sample's square tells the same, in fewer operations. A NaN passes neither test, nor does an infinity.
pub fn are_within(bound: f32, frame: &[f32]) -> bool
    ensures { result ≡ all_within bound frame.now }
{
    if bound == LARGEST_INPUT {
        is_each(frame, |x| x * x <= INPUT_SQUARE)
    } else if bound == LARGEST_LEVEL {
        is_each(frame, |x| x * x <= LEVEL_SQUARE)
    } else {
        is_each(frame, |x| floats::magnitude(x) <= bound)
    }
}

// Refuses with the first that applies to a frame, in the order 1, 4, 2, 3. Of the caller's own tests, set
// says that the samples are those that its state was set to, setting that its settings and its state
// pass, and figure that its figures do.
#[tactic(auto, unfolding(crate::specs::Refusal::frame_refusal))]
pub fn check(
    frame: &[f32],
    channels: usize,
    samples: usize,
    set: bool,
    setting: bool,
    figure: bool,
    bound: f32,
) -> Result<(), Refusal>
    ensures { result ≡ handed (frame_refusal frame.now channels samples set setting figure bound) tt }
{
    let shape = is_shape(channels, samples, frame.len()) & set;
    units::refusals::check(shape, setting, figure, are_within(bound, frame))
}
