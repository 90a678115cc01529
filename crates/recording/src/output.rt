// The levelled file: one that is named, or standard output.

use crate::input::within;
use std::fs::{File, OpenOptions};
use std::io::{Result, Seek, SeekFrom, Write};
use std::os::fd::AsRawFd;

// The output that was opened.
#[derive(Drop)]
pub(crate) enum Output {
    Standard,
    Named(File),
}

// Where bytes are written to.
#[derive(Clone, Copy)]
pub(crate) enum Outlet<'a> {
    Standard,
    Named(&'a File),
}

impl Outlet<'_> {
    // How a write to it that failed is told.
    fn name(self) -> &'static str {
        match self {
            Outlet::Standard => "recording: standard output",
            Outlet::Named(_) => "recording: the output",
        }
    }
}

// The number of standard error.
const STDERR_FILENO: i32 = 2;

// Where the output takes bytes.
pub(crate) fn outlet_of(output: &Output) -> Outlet<'_> {
    match output {
        Output::Standard => Outlet::Standard,
        Output::Named(file) => Outlet::Named(file),
    }
}

// Opens the file that the word of this number names, for the bytes that are to come in the place of its own.
fn open_named(rt: &HostRuntime, word: usize) -> Result<File> {
    let mut how = OpenOptions::new();
    how.write(true).create(true).truncate(true);
    outside::open_word(rt, word, &how)
}

// A file that was opened. A program that was started without standard error would write into the file what it tells, so it takes
// no file in the place of that.
fn taken(file: File) -> Option<Output> {
    if file.as_raw_fd() <= STDERR_FILENO {
        None
    } else {
        Some(Output::Named(file))
    }
}

// Opens the output: the file that the word of this number names, or standard output where there is no such word. Where that
// fails it is told, and there is none.
pub(crate) fn open(rt: &HostRuntime, word: usize) -> Option<Output> {
    if word < outside::word_count(rt) {
        taken(outside::or_tell(rt, "recording: the output", open_named(rt, word))?)
    } else {
        Some(Output::Standard)
    }
}

// Writes all bytes.
fn write_all(rt: &HostRuntime, out: Outlet<'_>, bytes: &[u8]) -> Result<()> {
    match out {
        Outlet::Standard => rt.write_all(bytes),
        Outlet::Named(file) => {
            let mut named = file;
            named.write_all(bytes)
        }
    }
}

// Writes so many bytes, and answers whether that went well. Where not, it is told.
pub(crate) fn write(rt: &HostRuntime, out: Outlet<'_>, bytes: &[u8], n: usize) -> bool {
    let m = within(n, bytes);
    let answer = write_all(rt, out, &bytes[..m]);
    outside::or_tell(rt, out.name(), answer).is_some()
}

// Whether the next bytes go to the start of a file. What cannot be sought, as a pipe, has none.
fn is_at_start(file: &File) -> bool {
    let mut named = file;
    matches!(named.seek(SeekFrom::Start(0)), Ok(0))
}

// Writes so many bytes over the first ones of a file. What cannot be sought, as a pipe, stays as it is.
pub(crate) fn write_first(rt: &HostRuntime, file: &File, bytes: &[u8], n: usize) -> bool {
    if is_at_start(file) {
        write(rt, Outlet::Named(file), bytes, n)
    } else {
        true
    }
}

// Settles the output.
fn settle_all(rt: &HostRuntime, out: Outlet<'_>) -> Result<()> {
    match out {
        Outlet::Standard => outside::settle_output(rt),
        Outlet::Named(file) => outside::settle_file(file),
    }
}

// Settles the output, and answers whether that went well. Where not, it is told; unless a write failed before, which was told.
pub(crate) fn settle(rt: &HostRuntime, out: Outlet<'_>, well: bool) -> bool {
    let answer = settle_all(rt, out);
    if well {
        outside::or_tell(rt, out.name(), answer).is_some()
    } else {
        answer.is_ok()
    }
}
