// Decibels to a ratio by document 01's own rule: a table of whole decibels, a table of sixteenths
// and a straight line over what is left.

#![tactic(auto)]

ghost use Rattle.std.specs.Prelude.{◌≡◌, T};
ghost use Rattle.decibels.specs.Ratio.{ratio_of, answer};
ghost use Rattle.units.specs.Figures.{gain};
ghost use Rattle.units.specs.Handed.{handed};

use units::kinds::Db;
use units::refusals::{Refusal, check};

// A: the f32 nearest to 10^(n/20), for n from 0 to 51.
const WHOLE: [f32; 52] = [
    1.0, 1.1220185, 1.2589254, 1.4125376, 1.5848932, 1.7782794, 1.9952623, 2.2387211, 2.5118864,
    2.818383, 3.1622777, 3.5481339, 3.9810717, 4.466836, 5.0118723, 5.623413, 6.3095737, 7.0794578,
    7.943282, 8.912509, 10.0, 11.220184, 12.589254, 14.125376, 15.848932, 17.782795, 19.952623,
    22.38721, 25.118864, 28.18383, 31.622776, 35.48134, 39.81072, 44.668358, 50.118725, 56.23413,
    63.095734, 70.79458, 79.43282, 89.12509, 100.0, 112.20184, 125.89254, 141.25375, 158.48932,
    177.82794, 199.52623, 223.87212, 251.18864, 281.8383, 316.22775, 354.8134,
];

// B: the f32 nearest to 10^(k/320), for k from 0 to 15.
const SIXTEENTH: [f32; 16] = [
    1.0, 1.0072216, 1.0144953, 1.0218214, 1.0292006, 1.0366329, 1.044119, 1.0516591, 1.0592537,
    1.0669031, 1.0746078, 1.0823681, 1.0901845, 1.0980573, 1.105987, 1.1139739,
];

// The ratio of a gain from 0 to 51 dB, and a refusal by 2 of any other.
pub fn ratio(gain: Db) -> Result<f32, Refusal>
    ensures { result ≡ handed (answer gain.0).reply (answer gain.0).ratio }
{
    let x = gain.0;
    check(true, true, units::figures::is_gain(Db(x)), true)?;
    Ok(worked_out(x))
}

// The ratio of x: (A[n]*B[k])*(1+f*0.11512925) where x = n + k/16 + f.
fn worked_out(x: f32) -> f32
    requires { T (gain x) }
    ensures { result ≡ ratio_of x }
{
    let steps = std::num::truncating_f32_to_u64(x * 16.0);
    let n = (steps / 16) as usize;
    let k = (steps % 16) as usize;
    let f = x - std::num::nearest_u32_to_f32(steps as u32) * 0.0625;
    (WHOLE[n] * SIXTEENTH[k]) * (1.0 + f * 0.11512925)
}
