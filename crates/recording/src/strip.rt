// The strip, read block by block.

use crate::input::{Inlet, read_once};
use recording_run::strip::{Drawn, Source, draw, refill};
use std::fs::File;

// Draws what comes next out of the strip: reads blocks until something does, the strip ends or a read fails. Each block is
// what one read brings, so that a strip that is still being written is taken as it comes. A proved loop has to end, so its
// turns are counted, up to a number that no run uses up.
pub(crate) fn draw_next(rt: &HostRuntime, strip: &File, block: &mut [u8], source: Source) -> Drawn {
    let mut now = draw(source, block);
    for _ in 0..u64::MAX {
        if !now.more {
            break;
        }
        let came = read_once(rt, Inlet::Strip(strip), block, 0);
        now = refill(now.source, block, came.n, came.failed);
    }
    now
}
