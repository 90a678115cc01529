// From a level to the gain that keeps it below full scale, with counts of where the levels lay. The
// Rust's interpolated_gain_curve.

#![tactic(auto)]

ghost use Rattle.std.specs.Prelude.{◌≡◌, T};
ghost use Rattle.units.specs.Handed.{handed};
ghost use Rattle.interpolated_gain_curve.specs.Gain.{gain_of, region_of, piece_of};
ghost use Rattle.interpolated_gain_curve.specs.Curve.{number_of, fresh, passes, not_negative, lasting, in_region, looked, told, read};

use units::kinds::LinearS16;
use units::refusals::{Refusal, check};

// Where a level lies, by the Rust's own numbers.
#[derive(Clone, Copy, Debug, PartialEq, Eq)]
pub enum Region {
    Identity = 0,
    Knee = 1,
    Limiter = 2,
    Saturation = 3,
}

// From this level on the gain is 32768/level: the Rust's MAX_INPUT_LEVEL_LINEAR.
const LARGEST_LEVEL: f32 = 36766.3;

// The knots: the Rust's APPROXIMATION_PARAMS_X.
const KNOTS: [f32; 32] = [
    30057.297, 30148.986, 30240.676, 30424.053, 30607.43, 30790.807, 30974.184, 31157.56, 31340.94,
    31524.316, 31707.693, 31891.07, 32074.447, 32257.824, 32441.201, 32624.58, 32807.957,
    32991.332, 33174.71, 33358.09, 33541.465, 33724.844, 33819.535, 34009.54, 34200.06, 34389.816,
    34674.49, 35054.375, 35434.863, 35814.816, 36195.168, 36575.03,
];

// The slope of each piece: the Rust's APPROXIMATION_PARAMS_M.
const SLOPES: [f32; 32] = [
    -0.00000035152357,
    -0.0000010502516,
    -0.0000020852137,
    -0.0000034430047,
    -0.0000047738495,
    -0.000006077376,
    -0.000007353258,
    -0.00000860122,
    -0.000009821013,
    -0.000011012434,
    -0.000012175326,
    -0.000013309569,
    -0.000014415075,
    -0.000015491793,
    -0.000016539707,
    -0.000017558828,
    -0.000018549184,
    -0.000019510868,
    -0.00002044398,
    -0.000021348627,
    -0.00002222497,
    -0.000022653747,
    -0.00002242571,
    -0.00002220122,
    -0.00002198021,
    -0.000021762602,
    -0.000021337317,
    -0.00002092482,
    -0.000020524596,
    -0.000020136154,
    -0.00001975903,
    -0.000019392779,
];

// The intercept of each piece: the Rust's APPROXIMATION_PARAMS_Q.
const INTERCEPTS: [f32; 32] = [
    1.0105659, 1.0316318, 1.0629297, 1.1042392, 1.144973, 1.1851096, 1.224629, 1.2635125, 1.301742,
    1.3393006, 1.3761733, 1.4123455, 1.447804, 1.4825366, 1.5165322, 1.5497806, 1.5822722,
    1.6139994, 1.644955, 1.6751324, 1.7045262, 1.7189866, 1.7112745, 1.7036397, 1.6960812,
    1.6885977, 1.6738511, 1.6593913, 1.6452094, 1.6312975, 1.6176474, 1.6042517,
];

// How many levels lay in each region, whether there was one, the region of the last one, and how
// many look-ups long it has been that region: the Rust's Stats. A count rolls over to 0 after the
// largest; the duration is held at its largest.
//
// `available` and `region` are the Rust's fields and those of the C struct that a curve is kept in. C may hand in any
// number of a region, which `passes` tests, so it is no Region here.
#[derive(Clone, Copy)]
pub struct Curve {
    pub identity: u64,
    pub knee: u64,
    pub limiter: u64,
    pub saturation: u64,
    pub available: bool,
    pub region: u32,
    pub duration: i64,
}

// The gain of a level, and the curve that has counted it.
#[derive(Clone, Copy)]
pub struct Looked {
    pub curve: Curve,
    pub gain: f32,
}

impl Curve {
    // A curve that has seen no level.
    pub fn new() -> Curve
        ensures { result ≡ fresh }
    {
        Curve {
            identity: 0,
            knee: 0,
            limiter: 0,
            saturation: 0,
            available: false,
            region: Region::Identity as u32,
            duration: 0,
        }
    }

    // Whether a handed-in state passes: a region that there is, and a duration that is not negative.
    pub fn passes(self) -> bool
        ensures { result ≡ passes self }
    {
        (self.region <= Region::Saturation as u32) & (0 <= self.duration)
    }

    // The gain of a level from 0 to 33554432, with the level counted. Any other level is refused with
    // 2, after a state that fails its test, with 4; then nothing is counted.
    pub fn look_up_gain_to_apply(self, level: LinearS16) -> Result<Looked, Refusal>
        ensures { result ≡ handed (looked self level.0).reply (told (looked self level.0)) }
    {
        let x = level.0;
        let state = self.passes();
        let figure = units::figures::is_curve_level(level);
        check(true, state, figure, true)?;
        Ok(Looked {
            curve: self.in_region(region_of(x)),
            gain: gain_of(x),
        })
    }

    // The statistics. A state that fails its test is refused with 4.
    pub fn get_stats(self) -> Result<Curve, Refusal>
        ensures { result ≡ handed (read self).reply (read self).stats }
    {
        check(true, self.passes(), true, true)?;
        Ok(self)
    }

    // The state after a level in this region: the Rust's update_stats.
    fn in_region(self, now: Region) -> Curve
        requires { T (passes self) }
        ensures { result ≡ in_region self (number_of now) }
    {
        let number = now as u32;
        let mut next = self;
        match now {
            Region::Identity => next.identity = self.identity.wrapping_add(1),
            Region::Knee => next.knee = self.knee.wrapping_add(1),
            Region::Limiter => next.limiter = self.limiter.wrapping_add(1),
            Region::Saturation => next.saturation = self.saturation.wrapping_add(1),
        }
        next.available = true;
        next.region = number;
        next.duration = lasting(number, self.region, self.duration);
        next
    }
}

// The duration after a level in the region `now`: one longer where the region before is the same,
// held at the largest, and 0 at a change.
fn lasting(now: u32, before: u32, duration: i64) -> i64
    requires { T (not_negative duration) }
    ensures { result ≡ lasting now before duration }
{
    if now == before {
        duration.saturating_add(1)
    } else {
        0
    }
}

// The region of a level, by strict comparison.
fn region_of(level: f32) -> Region
    ensures { number_of result ≡ region_of level }
{
    if level < KNOTS[0] {
        Region::Identity
    } else if level < KNOTS[21] {
        Region::Knee
    } else if level < LARGEST_LEVEL {
        Region::Limiter
    } else {
        Region::Saturation
    }
}

// The largest i whose knot is strictly below the level, and 0 where there is none: a search from the
// first knot to the last, which takes no branch.
fn piece_of(level: f32) -> usize
    ensures { result ≡ piece_of level }
{
    let mut piece = 0;
    for (i, knot) in KNOTS.iter().enumerate() {
        piece = floats::pick(*knot < level, i, piece);
    }
    piece
}

// The gain of a level. The search is made only for a level between the ends.
fn gain_of(level: f32) -> f32
    ensures { result ≡ gain_of level }
{
    if level <= KNOTS[0] {
        1.0
    } else if level >= LARGEST_LEVEL {
        32768.0 / level
    } else {
        let i = piece_of(level);
        SLOPES[i] * level + INTERCEPTS[i]
    }
}
