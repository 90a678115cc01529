// The metering of a recording, 10 ms after the other, to standard output.

use crate::input::{Inlet, fill_some, look_behind, room};
use crate::output::{Outlet, settle, write};
use crate::told;
use loudness::{FORMAT_BYTES, RECORD_BYTES};
use recording_run::answer::of_metering;
use recording_run::levelling::{frame_bytes, hear};
use recording_run::metering::{Meter, after_write, begin, heard_meter, meter_sound, told_at_end};
use recording_run::wave::Search;

// Meters 10 ms of which so many bytes were heard, and writes how loud they are.
fn with_sound(
    rt: &HostRuntime,
    channels: usize,
    samples: usize,
    bytes: &mut [u8],
    n: usize,
    meter: Meter,
) -> Meter {
    let mut out = [0u8; RECORD_BYTES];
    let turn = meter_sound(meter, n, bytes, channels, samples, &mut out);
    after_write(turn.meter, write(rt, Outlet::Standard, &out, turn.n))
}

// Reads the next 10 ms and meters them; or ends the metering.
fn next_sound(
    rt: &HostRuntime,
    channels: usize,
    samples: usize,
    bytes: &mut [u8],
    meter: Meter,
) -> Meter {
    let filled = fill_some(rt, Inlet::Standard, bytes, meter.left);
    let n = hear(bytes, filled.n, channels);
    let heard = heard_meter(meter, n, filled.failed);
    if heard.more {
        with_sound(rt, channels, samples, bytes, n, heard)
    } else {
        heard
    }
}

// Meters all, 10 ms after the other. A proved loop has to end, so its turns are counted, up to a number that no metering
// uses up.
fn take_sounds(
    rt: &HostRuntime,
    channels: usize,
    samples: usize,
    bytes: &mut [u8],
    meter: Meter,
) -> Meter {
    let mut now = meter;
    for _ in 0..u64::MAX {
        if !now.more {
            break;
        }
        now = next_sound(rt, channels, samples, bytes, now);
    }
    now
}

// The same with room for 10 ms.
fn take_all(rt: &HostRuntime, channels: usize, samples: usize, meter: Meter) -> Meter {
    let mut bytes = room();
    let n = frame_bytes(channels, samples);
    take_sounds(rt, channels, samples, &mut bytes[..n], meter)
}

// The end of a metering that went well: it looks whether there is more behind the samples, and settles the output.
fn end_well(rt: &HostRuntime, channels: usize, size: u32, meter: Meter) -> Option<u32> {
    let behind = look_behind(rt, size);
    let told = told_at_end(meter, size, channels, behind.n);
    told::of_run(rt, told);
    let settled = settle(rt, Outlet::Standard, true);
    of_metering(meter, told, behind.failed, settled)
}

// Meters the samples that were found, whose chunk says this size, and answers what is said at the end.
pub(crate) fn meter_samples(rt: &HostRuntime, search: Search, size: u32) -> Option<u32> {
    let mut out = [0u8; FORMAT_BYTES];
    let channels = search.format.channels;
    let samples = search.format.samples;
    let begun = begin(channels, samples, size, &mut out);
    let meter = after_write(begun.meter, write(rt, Outlet::Standard, &out, begun.n));
    let last = take_all(rt, channels, samples, meter);
    if last.well {
        end_well(rt, channels, size, last)
    } else {
        let settled = settle(rt, Outlet::Standard, false);
        of_metering(last, None, false, settled)
    }
}
