// The WAV file on standard input, up to its samples.

use crate::input::{Inlet, fill_some, within};
use recording_run::wave::{Search, begin, goes_on, take_bytes, wanted_bytes};

// Reads the bytes that the search asks for, and goes on with them.
fn search_once(rt: &HostRuntime, search: Search) -> Search {
    let mut buffer = io::buffer();
    let wanted = wanted_bytes(search.stage);
    let filled = fill_some(rt, Inlet::Standard, &mut buffer, wanted);
    let n = within(filled.n, &buffer);
    take_bytes(search, &buffer[..n], filled.failed)
}

// Searches for the samples. A proved loop has to end, so its turns are counted, up to a number that no run
// uses up.
pub(crate) fn find(rt: &HostRuntime) -> Search {
    let mut now = begin();
    for _ in 0..u64::MAX {
        if !goes_on(now.stage) {
            break;
        }
        now = search_once(rt, now);
    }
    now
}
