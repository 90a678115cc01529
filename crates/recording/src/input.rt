// Standard input and the strip, read until a buffer is full.

ghost use Rattle.std.specs.Prelude.{◌≡◌, min, length};
ghost use Rattle.io.specs.Counts.{IsPrefixLen};

use recording_run::input::{Filled, after_read, empty};
use recording_run::levelling::behind_bytes;
use std::fs::File;
use std::io::{Read, Result};

// Where bytes are read from: standard input, or the strip.
#[derive(Clone, Copy)]
pub(crate) enum Inlet<'a> {
    Standard,
    Strip(&'a File),
}

impl Inlet<'_> {
    // How a read of it that failed is told.
    fn name(self) -> &'static str {
        match self {
            Inlet::Standard => "recording: standard input",
            Inlet::Strip(_) => "recording: the strip",
        }
    }
}

// The most bytes that a frame has.
const MOST_BYTES: usize = 7680;

// Room for the bytes of a frame.
pub(crate) fn room() -> [u8; MOST_BYTES]
    ensures { 7680 ≡ length result }
{
    [0; MOST_BYTES]
}

// As many bytes of a buffer as asked, and never more than it has.
pub(crate) fn within(n: usize, buffer: &[u8]) -> usize
    ensures prefix_len { IsPrefixLen result buffer.now }
    ensures value { result ≡ min n (length buffer.now) }
{
    n.min(buffer.len())
}

// Reads once, to the start of a buffer.
fn read(rt: &HostRuntime, from: Inlet<'_>, buffer: &mut [u8]) -> Result<usize> {
    match from {
        Inlet::Standard => rt.stdin().read(buffer),
        Inlet::Strip(file) => {
            let mut strip = file;
            strip.read(buffer)
        }
    }
}

// Reads once, behind the bytes that are filled. A read that fails is told.
pub(crate) fn read_once(rt: &HostRuntime, from: Inlet<'_>, buffer: &mut [u8], n: usize) -> Filled {
    let most = buffer.len();
    if n < most {
        let answer = read(rt, from, &mut buffer[n..]);
        match outside::or_tell(rt, from.name(), answer) {
            Some(came) => after_read(n, came, false, most),
            None => after_read(n, 0, true, most),
        }
    } else {
        after_read(n, 0, false, most)
    }
}

// Reads until a buffer is full, the input ends or a read fails. A proved loop has to end, so its turns are counted, up to a
// number that no run uses up.
pub(crate) fn fill(rt: &HostRuntime, from: Inlet<'_>, buffer: &mut [u8]) -> Filled {
    let mut filled = empty(buffer.len());
    for _ in 0..u64::MAX {
        if !filled.more {
            break;
        }
        filled = read_once(rt, from, buffer, filled.n);
    }
    filled
}

// The same for so many bytes of a buffer, and never more than it has.
pub(crate) fn fill_some(
    rt: &HostRuntime,
    from: Inlet<'_>,
    buffer: &mut [u8],
    most: usize,
) -> Filled {
    let n = within(most, buffer);
    fill(rt, from, &mut buffer[..n])
}

// Looks behind samples whose chunk says this size.
pub(crate) fn look_behind(rt: &HostRuntime, size: u32) -> Filled {
    let mut buffer = [0u8; 1];
    fill_some(rt, Inlet::Standard, &mut buffer, behind_bytes(size))
}
