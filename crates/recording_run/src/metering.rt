// A metering of the samples of a recording: what it begins with, what is written of each 10 ms, how many bytes are left, and
// what is told.

ghost use Rattle.std.specs.Prelude.{◌≡◌};
ghost use Rattle.recording_run.specs.Metering.{started, meter_heard, metered, meter_written, meter_at_end};

use crate::levelling::{Told, extent_of, told_of_samples};
use loudness::{FORMAT_BYTES, RECORD_BYTES, put_format, put_loudness};

// How far a metering is: how many bytes of samples are still to come, whether it goes on, and whether all went well so far.
#[derive(Clone, Copy)]
pub struct Meter {
    pub left: usize,
    pub more: bool,
    pub well: bool,
}

// The metering before its first 10 ms or after some, and how many bytes are written.
#[derive(Clone, Copy)]
pub struct Metered {
    pub meter: Meter,
    pub n: usize,
}

// Begins a metering of samples of this format, whose chunk says this size: the bytes that it begins with in the first ones
// of a lent buffer. It is over where these are refused, and nothing is written then.
pub fn begin(channels: usize, samples: usize, size: u32, out: &mut [u8]) -> Metered
    ensures value { result ≡ (started channels samples size out.old).turn }
    ensures out_after { out.new ≡ (started channels samples size out.old).out }
{
    let extent = extent_of(size, channels);
    let done = put_format(channels, samples, size, out).is_ok();
    Metered {
        meter: Meter {
            left: extent.left,
            more: done,
            well: done,
        },
        n: floats::pick(done, FORMAT_BYTES, 0),
    }
}

// The metering once so many bytes of 10 ms were heard: it ends where there are none, and where a read failed.
pub fn heard_meter(meter: Meter, n: usize, failed: bool) -> Meter
    ensures { result ≡ meter_heard meter n failed }
{
    Meter {
        more: (0 < n) & !failed,
        well: !failed,
        ..meter
    }
}

// Meters 10 ms of which so many bytes were heard: how loud they are in the first bytes of a lent buffer. The metering ends
// where they are refused, and nothing is written then.
pub fn meter_sound(
    meter: Meter,
    n: usize,
    bytes: &[u8],
    channels: usize,
    samples: usize,
    out: &mut [u8],
) -> Metered
    ensures value { result ≡ (metered meter n bytes.now channels samples out.old).turn }
    ensures out_after { out.new ≡ (metered meter n bytes.now channels samples out.old).out }
{
    let done = put_loudness(bytes, channels, samples, out).is_ok();
    Metered {
        meter: Meter {
            left: floats::pick(done, meter.left.saturating_sub(n), meter.left),
            more: done,
            well: done,
        },
        n: floats::pick(done, RECORD_BYTES, 0),
    }
}

// The metering once its bytes were written, or could not be.
pub fn after_write(meter: Meter, written: bool) -> Meter
    ensures { result ≡ meter_written meter written }
{
    Meter {
        more: meter.more & written,
        well: meter.well & written,
        ..meter
    }
}

// What is told at the end of a metering of samples whose chunk says this size, where so many bytes come behind them, of those
// that were looked for. Of one that did not go well all is told.
pub fn told_at_end(meter: Meter, size: u32, channels: usize, behind: usize) -> Option<Told>
    ensures { result ≡ meter_at_end meter size channels behind }
{
    if meter.well {
        told_of_samples(size, channels, meter.left, behind, None)
    } else {
        None
    }
}
