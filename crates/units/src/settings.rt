// What an operator sets, and the range of each setting. A negative zero is refused in a setting.

ghost use Rattle.std.specs.Prelude.{◌≡◌};
ghost use Rattle.units.specs.Settings.{accepted, threshold, setting, usual, unset};

use crate::kinds::{Db, Dbfs};

// The largest number of adjacent speech frames that can be asked for: thirty seconds.
pub const LARGEST_THRESHOLD: u32 = 3000;

// The Rust's AdaptiveDigitalConfig.
#[repr(C)]
#[derive(Clone, Copy, PartialEq)]
pub struct Settings {
    // How far below full scale a reading is to end: `headroom_db`.
    pub headroom: Db,
    // The largest gain: `max_gain_db`.
    pub largest: Db,
    // The gain to start with: `initial_gain_db`.
    pub initial: Db,
    // By how many dB the gain may change in a second: `max_gain_change_db_per_second`.
    pub change: f32,
    // The loudest that noise may come out: `max_output_noise_level_dbfs`.
    pub noise: Dbfs,
}

impl Settings {
    // The Rust's defaults: headroom 5, largest gain 50, initial gain 15, change 6 dB a second, noise
    // -50 dBFS.
    pub fn usual() -> Settings
        ensures { result ≡ usual }
    {
        Settings {
            headroom: Db(5.0),
            largest: Db(50.0),
            initial: Db(15.0),
            change: 6.0,
            noise: Dbfs(-50.0),
        }
    }

    // All 0: what stands in a state that was refused. It is not accepted.
    pub fn unset() -> Settings
        ensures { result ≡ unset }
    {
        Settings {
            headroom: Db(0.0),
            largest: Db(0.0),
            initial: Db(0.0),
            change: 0.0,
            noise: Dbfs(0.0),
        }
    }

    // Whether each setting lies in its range and none is a negative zero.
    pub fn accepted(self) -> bool
        ensures { result ≡ accepted self }
    {
        is_setting(0.0, self.headroom.0, 50.0)
            & (0.0 < self.largest.0)
            & (self.largest.0 <= 50.0)
            & is_setting(0.0, self.initial.0, 50.0)
            & is_setting(0.01, self.change, 100.0)
            & is_setting(-90.0, self.noise.0, 0.0)
    }
}

// Whether low <= x <= high, and x is no negative zero.
fn is_setting(low: f32, x: f32, high: f32) -> bool
    ensures { result ≡ setting low x high }
{
    (low <= x) & (x <= high) & !floats::is_negative_zero(x)
}

// Whether a number of adjacent speech frames lies from 1 to the largest.
pub fn is_threshold(frames: u32) -> bool
    ensures { result ≡ threshold frames }
{
    (1 <= frames) & (frames <= LARGEST_THRESHOLD)
}
