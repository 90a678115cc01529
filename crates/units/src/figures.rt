// The range of each figure, as a test, and the five figures that are metered of a frame. A negative zero is
// allowed wherever zero is.

ghost use Rattle.std.specs.Prelude.{◌≡◌};
ghost use Rattle.units.specs.Ranges.{closed};
ghost use Rattle.units.specs.Figures.{probability, rms, level, envelope, headroom, curve_level, gain_factor, gain, accepted};

use crate::kinds::{Db, Dbfs, LinearS16};

// What was metered of a frame: the probability of speech, the rms level, the peak, the level of the noise,
// and the limiter's envelope.
#[repr(C)]
#[derive(Clone, Copy)]
pub struct Figures {
    pub probability: f32,
    pub rms: Dbfs,
    pub peak: Dbfs,
    pub noise: Dbfs,
    pub envelope: Dbfs,
}

// Whether low <= x <= high.
fn is_closed(low: f32, x: f32, high: f32) -> bool
    ensures { result ≡ closed low x high }
{
    (low <= x) & (x <= high)
}

// Whether a speech probability lies from 0 to 1.
pub fn is_probability(x: f32) -> bool
    ensures { result ≡ probability x }
{
    is_closed(0.0, x, 1.0)
}

// Whether an rms level lies above -150 and below 50.
pub fn is_rms(x: Dbfs) -> bool
    ensures { result ≡ rms x.0 }
{
    (-150.0 < x.0) & (x.0 < 50.0)
}

// Whether a peak, a noise level or a speech level lies from -150 to 50.
pub fn is_level(x: Dbfs) -> bool
    ensures { result ≡ level x.0 }
{
    is_closed(-150.0, x.0, 50.0)
}

// Whether a limiter's envelope in dBFS lies from -150 to 100.
pub fn is_envelope(x: Dbfs) -> bool
    ensures { result ≡ envelope x.0 }
{
    is_closed(-150.0, x.0, 100.0)
}

// Whether a headroom lies above 0 and up to 100.
pub fn is_headroom(x: Db) -> bool
    ensures { result ≡ headroom x.0 }
{
    (0.0 < x.0) & (x.0 <= 100.0)
}

// Whether a level for the gain curve lies from 0 to 33554432.
pub fn is_curve_level(x: LinearS16) -> bool
    ensures { result ≡ curve_level x.0 }
{
    is_closed(0.0, x.0, 33554432.0)
}

// Whether a gain factor lies above 0 and below 512.
pub fn is_gain_factor(x: f32) -> bool
    ensures { result ≡ gain_factor x }
{
    (0.0 < x) & (x < 512.0)
}

// Whether a gain that is to be made a ratio lies from 0 to 51.
pub fn is_gain(x: Db) -> bool
    ensures { result ≡ gain x.0 }
{
    is_closed(0.0, x.0, 51.0)
}

impl Figures {
    // Whether each figure lies in its range.
    pub fn accepted(self) -> bool
        ensures { result ≡ accepted self }
    {
        is_probability(self.probability)
            & is_rms(Dbfs(self.rms.0))
            & is_level(Dbfs(self.peak.0))
            & is_level(Dbfs(self.noise.0))
            & is_envelope(Dbfs(self.envelope.0))
    }
}
