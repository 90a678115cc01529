// What the programs ask of the world around them: the words of the command, why a call failed, and whether standard output
// keeps what was written to it. What the system answers nobody can promise: a function without a promise hands that on.

#![tactic(auto)]

ghost use Rattle.std.specs.Prelude.{◌≡◌, ◌≢◌, length, take, IsOk, IsErr, IfErr, IsErrAnd};
ghost use Rattle.std.specs.Result.{result_ok};
ghost use Rattle.std.specs.Str.{IsUtf8};
ghost use Rattle.std.specs.IoError.{error_kind};
ghost use Rattle.io.specs.Counts.{IsPrefixLen};

use std::env::{Env, FillError};
use std::fs::{File, OpenOptions};
use std::io::{Error, ErrorKind, Result};
use std::os::fd::AsFd;
use std::{fs, str};

// The system's number for a name that is too long.
const NAME_TOO_LONG: i32 = 36;

// The most bytes that a path has, and one more.
const PATH_ROOM: usize = 4096;

// Standard output by its path.
const OUTPUT: &str = "/proc/self/fd/1";

// Puts a word of the command at the start of a buffer, and answers how long it is: 0 where there is no such word, and where it is
// longer than the buffer. Word 0 is the program's own name.
pub fn word(rt: &HostRuntime, number: usize, buffer: &mut [u8]) -> usize
    ensures { IsPrefixLen result buffer.new }
{
    rt.arg(number, buffer).unwrap_or(0)
}

// How many words the command has, the program's own name among them.
pub fn word_count(rt: &HostRuntime) -> usize {
    let mut room = [0u8; 1];
    for i in 0..usize::MAX {
        if let Err(FillError::NotPresent) = rt.arg(i, &mut room) {
            return i;
        }
    }
    usize::MAX
}

// Opens the file that a path names, which is text.
fn open_path(rt: &HostRuntime, path: &[u8], how: &OpenOptions) -> Result<File>
    ensures { ¬ (IsUtf8 path.now) → IsErrAnd result (λ e. error_kind e ≡ ErrorKind.InvalidFilename) }
{
    match str::from_utf8(path) {
        Ok(text) => how.open(rt, text),
        Err(_) => Err(Error::from(ErrorKind::InvalidFilename)),
    }
}

// Opens the file that a word of the command names.
pub fn open_word(rt: &HostRuntime, number: usize, how: &OpenOptions) -> Result<File> {
    let mut path = [0u8; PATH_ROOM];
    match rt.arg(number, &mut path) {
        Ok(n) => open_path(rt, &path[..n], how),
        Err(FillError::TooLong) => Err(Error::from_raw_os_error(NAME_TOO_LONG)),
        Err(FillError::NotPresent) => Err(Error::from(ErrorKind::NotFound)),
    }
}

// Tells a text on standard error. Where nobody can be told, nothing comes of it.
pub fn tell(rt: &HostRuntime, text: &str) {
    let _ = rt.eprint(text);
}

// The reason that an error's text gives, without the system's number for it.
fn reason(text: &str) -> &str
    ensures { take (length result.now) text.now ≡ result.now }
{
    match text.split_once(" (os error ") {
        Some((reason, _)) => reason,
        None => text,
    }
}

// Tells on standard error what failed, as the caller names it, and why.
pub fn fail(rt: &HostRuntime, what: &str, error: Error) {
    let _ = match format!(in rt.alloc(); "{error}") {
        Ok(text) => rt.eprintln(format_args!("{what}: {}", reason(text.as_str()))),
        Err(_) => rt.eprintln(format_args!("{what}: {error}")),
    };
}

// Hands on what went well. What failed is told on standard error, as the caller names it, and there is nothing.
pub fn or_tell<T: Drop>(rt: &HostRuntime, what: &str, answer: Result<T>) -> Option<T>
    ensures { result ≡ result_ok answer }
{
    match answer {
        Ok(given) => Some(given),
        Err(e) => {
            fail(rt, what, e);
            None
        }
    }
}

// Whether what was asked of a file went well: what can put nothing on a disk has nothing to fail.
fn settled(answer: Result<()>) -> Result<()>
    ensures ok { IsOk answer → IsOk result }
    ensures passed_on { IfErr result (λ e. answer ≡ Err e) }
    ensures nothing_to_fail { IfErr result (λ e. (error_kind e ≢ ErrorKind.InvalidInput) × (error_kind e ≢ ErrorKind.Unsupported)) }
    ensures failed { IfErr answer (λ e. error_kind e ≢ ErrorKind.InvalidInput → error_kind e ≢ ErrorKind.Unsupported → IsErr result) }
{
    match answer {
        Ok(()) => Ok(()),
        Err(e) => match e.kind() {
            ErrorKind::InvalidInput | ErrorKind::Unsupported => Ok(()),
            _ => Err(e),
        },
    }
}

// Has the system put what was written to a file on its disk.
pub fn settle_file(file: &File) -> Result<()> {
    settled(file.sync_data())
}

// Whether standard output is a plain file.
fn is_plain_output(rt: &HostRuntime) -> bool {
    fs::metadata(rt, OUTPUT).is_ok_and(|known| known.is_file())
}

// The same for a plain file that standard output is. It is opened once more for that; where it cannot be, there is nobody to ask.
fn settle_plain_output(rt: &HostRuntime) -> Result<()> {
    match OpenOptions::new().append(true).open(rt, OUTPUT) {
        Ok(file) => settle_file(&file),
        Err(_) => Ok(()),
    }
}

// Answers well where standard output is open, and keeps all that was written to it. A plain file may be on a disk that takes what
// is written, and fails only later.
pub fn settle_output(rt: &HostRuntime) -> Result<()> {
    let _open = rt.stdout().as_fd().try_clone_to_owned()?;
    if is_plain_output(rt) {
        settle_plain_output(rt)
    } else {
        Ok(())
    }
}
