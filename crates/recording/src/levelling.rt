// The frames of the recording through the chain, one after the other.

use crate::input::{Inlet, fill_some, look_behind, room};
use crate::output::{Outlet, settle, write, write_first};
use crate::strip::draw_next;
use crate::told;
use recording_run::answer::of_run;
use recording_run::levelling::{
    Run, after_write, frame_bytes, hear, heard_run, put_right, take_entry, told_at_end,
};
use recording_run::rest::{Rest, take_rest};
use recording_run::strip::Source;
use std::fs::File;
use wav_format::head::{Format, LONGEST_HEAD};

// What stays the same from frame to frame: where the strip is read and the levelled file is written, the format, and the
// size that the file says of all samples.
#[derive(Clone, Copy)]
pub(crate) struct Desk<'s, 'o> {
    pub strip: &'s File,
    pub out: Outlet<'o>,
    pub format: Format,
    pub size: u32,
}

// The run, and the strip beside it.
#[derive(Clone, Copy)]
pub(crate) struct Both {
    pub run: Run,
    pub source: Source,
}

// The same after what came out of the strip for a frame, how many bytes of the frame are written, and whether it still waits
// for its figures.
#[derive(Clone, Copy)]
struct Taken {
    both: Both,
    n: usize,
    again: bool,
}

// Draws what comes next out of the strip, and takes it for a frame of which so many bytes were heard.
fn take_next(
    rt: &HostRuntime,
    desk: Desk<'_, '_>,
    block: &mut [u8],
    bytes: &mut [u8],
    n: usize,
    both: Both,
) -> Taken {
    let drawn = draw_next(rt, desk.strip, block, both.source);
    let format = desk.format;
    let turn = take_entry(
        both.run,
        n,
        drawn.got,
        bytes,
        format.channels,
        format.samples,
    );
    told::of_run(rt, turn.told);
    Taken {
        both: Both {
            run: turn.run,
            source: drawn.source,
        },
        n: turn.n,
        again: turn.again,
    }
}

// Takes the gaps that the strip has before the figures of a frame, of which so many bytes were heard, and these, and writes
// the frame. A proved loop has to end, so its turns are counted, up to a number that no run uses up.
fn with_record(
    rt: &HostRuntime,
    desk: Desk<'_, '_>,
    block: &mut [u8],
    bytes: &mut [u8],
    n: usize,
    both: Both,
) -> Both {
    let mut now = Taken {
        both,
        n: 0,
        again: true,
    };
    for _ in 0..u64::MAX {
        if !now.again {
            break;
        }
        now = take_next(rt, desk, block, bytes, n, now.both);
    }
    let last = now.both;
    Both {
        run: after_write(last.run, write(rt, desk.out, bytes, now.n)),
        source: last.source,
    }
}

// Reads the next frame, levels it and writes it; or ends the run.
fn next_frame(
    rt: &HostRuntime,
    desk: Desk<'_, '_>,
    block: &mut [u8],
    bytes: &mut [u8],
    both: Both,
) -> Both {
    let run = both.run;
    let filled = fill_some(rt, Inlet::Standard, bytes, run.left);
    let n = hear(bytes, filled.n, desk.format.channels);
    let heard = heard_run(run, n, filled.failed);
    let now = Both {
        run: heard,
        source: both.source,
    };
    if heard.more {
        with_record(rt, desk, block, bytes, n, now)
    } else {
        now
    }
}

// Takes the frames one after the other. A proved loop has to end, so its turns are counted, up to a number that no run uses
// up.
fn take_frames(
    rt: &HostRuntime,
    desk: Desk<'_, '_>,
    block: &mut [u8],
    bytes: &mut [u8],
    both: Both,
) -> Both {
    let mut now = both;
    for _ in 0..u64::MAX {
        if !now.run.more {
            break;
        }
        now = next_frame(rt, desk, block, bytes, now);
    }
    now
}

// Takes all frames.
fn take_all(rt: &HostRuntime, desk: Desk<'_, '_>, block: &mut [u8], both: Both) -> Both {
    let mut bytes = room();
    let n = frame_bytes(desk.format.channels, desk.format.samples);
    take_frames(rt, desk, block, &mut bytes[..n], both)
}

// Puts the head of a file that is named right, and answers whether that went well. Standard output keeps the head that it
// has.
fn right_head(rt: &HostRuntime, desk: Desk<'_, '_>, run: Run) -> bool {
    match desk.out {
        Outlet::Standard => true,
        Outlet::Named(file) => {
            let mut head = [0u8; LONGEST_HEAD];
            let n = put_right(run, desk.format, desk.size, &mut head);
            if 0 < n {
                write_first(rt, file, &head, n)
            } else {
                true
            }
        }
    }
}

// Takes the gaps that the strip has behind the last frame, and what comes then. A proved loop has to end, so its turns are
// counted, up to a number that no run uses up.
fn rest_of(rt: &HostRuntime, strip: &File, block: &mut [u8], both: Both) -> Rest {
    let mut source = both.source;
    let mut now = Rest {
        run: both.run,
        goes: false,
        again: true,
        failed: false,
    };
    for _ in 0..u64::MAX {
        if !now.again {
            break;
        }
        let drawn = draw_next(rt, strip, block, source);
        source = drawn.source;
        now = take_rest(now.run, drawn.got);
    }
    now
}

// The end of a run that went well: it looks whether there is more behind the samples and in the strip, puts the head right
// and settles the output.
fn end_well(rt: &HostRuntime, desk: Desk<'_, '_>, block: &mut [u8], both: Both) -> Option<u32> {
    let behind = look_behind(rt, desk.size);
    let rest = rest_of(rt, desk.strip, block, both);
    let run = rest.run;
    let told = told_at_end(run, desk.size, desk.format.channels, behind.n, rest.goes);
    told::of_run(rt, told);
    let righted = right_head(rt, desk, run);
    let settled = settle(rt, desk.out, righted);
    of_run(run, told, behind.failed | rest.failed, righted & settled)
}

// Levels all frames, and answers what is said at the end.
pub(crate) fn level(
    rt: &HostRuntime,
    desk: Desk<'_, '_>,
    block: &mut [u8],
    both: Both,
) -> Option<u32> {
    let last = take_all(rt, desk, block, both);
    let run = last.run;
    if run.well {
        end_well(rt, desk, block, last)
    } else {
        let settled = settle(rt, desk.out, false);
        of_run(run, None, false, settled)
    }
}
