// Carries the strip on standard input to the other version, on standard output: `carry up` takes one of version 1 to version 2,
// and `carry back` one of version 2 to version 1. strip_carry says what is refused, and which bytes are written.
//
// It reads the strip twice: once to judge it, and then once more to write it. So standard input has to be a file; a pipe is
// told. The words `--file FILE` behind the way name the strip in its stead. Before the first byte is written a line on standard
// error says how many there will be. A refusal is a line there with the record's number, R and the reply's number, and nothing
// is written. Where the strip is not the same when it is read for the second time, that is told too, and what was written is no
// strip.
//
// The last that it does is to write a number to descriptor 3, in decimal and with no line end: 0 where all was written, or that
// of the refusal. Where a read or a write failed, or the strip changed, none is written.
//
// The memory is fixed: a strip of any length goes through.

#![tactic(auto)]

ghost use Rattle.std.specs.Prelude.{IfSome};
ghost use Rattle.io.specs.Counts.{IsPrefixLen};

use std::fs;
use std::fs::{File, OpenOptions};
use std::io::Seek;
use std::os::unix::fs::{FileExt, FileTypeExt};
use strip_carry::{End, Run, Way, end_of, told_of, way_of};
use strip_format::Version;

// So many bytes are read at a time: what they put out has room in 65,536 bytes.
const BLOCK: usize = 2048;

// The largest offset.
const LAST: u64 = 0x7fff_ffff_ffff_ffff;

// The word in front of the path of a strip.
const FILE_WORD: &[u8] = b"--file";

// The strip by its path. Who opens that opens standard input once more, at its start.
const STRIP: &str = "/proc/self/fd/0";

// What a message calls standard output.
const OUTPUT: &str = "carry: standard output";

// The descriptor that the number is written to.
const REPLY_FILENO: i32 = 3;

// The number that is written there where all went well.
const WELL: u64 = 0;

// A reading: the run at its end, and whether each read went well, and each write. What is told depends on that by the proved
// calls told_of and end_of, which take it.
#[derive(Clone, Copy)]
struct Gone {
    run: Run,
    read: bool,
    written: bool,
}

// A place of the strip as an offset. No file is longer than 2^63 - 1 bytes, so no place is behind that.
fn offset(place: u64) -> u64 {
    if place <= LAST { place } else { LAST }
}

// What a message calls the strip.
fn strip_name(rt: &HostRuntime) -> &'static str {
    if is_named(rt) {
        "carry: the strip"
    } else {
        "carry: standard input"
    }
}

// Reads a block that begins at a place of the strip, and answers how many bytes it has, none at the strip's end. A read that
// fails is told.
fn read_block(rt: &HostRuntime, strip: &File, block: &mut [u8], place: u64) -> Option<usize>
    ensures { IfSome result (λ n. IsPrefixLen n block.new) }
{
    match strip.read_at(block, offset(place)) {
        Ok(n) => Some(n),
        // No outside::or_tell: the name is looked up only where it is needed.
        Err(e) => {
            outside::fail(rt, strip_name(rt), e);
            None
        }
    }
}

// Reads the strip from its start to its end, and writes what it is carried to, where that is asked for. A proved loop has to
// end, so it counts its turns, up to a number that no run uses up.
fn go_through(rt: &HostRuntime, strip: &File, from: Version, writes: bool) -> Gone {
    let mut block = [0u8; BLOCK];
    let mut out = io::large_buffer();
    let mut run = Run::new(from);
    for _ in 0..u64::MAX {
        let Some(n) = read_block(rt, strip, &mut block, run.place) else {
            return Gone {
                run,
                read: false,
                written: true,
            };
        };
        let Ok(taken) = run.take(&block[..n], &mut out) else {
            outside::tell(rt, "carry: the bytes do not fit\n");
            return Gone {
                run,
                read: true,
                written: false,
            };
        };
        run = taken.run;
        let written = !writes
            || outside::or_tell(rt, OUTPUT, rt.write_all(&out[..taken.length])).is_some();
        if !written || !run.tally.more {
            return Gone {
                run,
                read: true,
                written,
            };
        }
    }
    Gone {
        run,
        read: true,
        written: true,
    }
}

// Writes the strip that was read first, and tells how that ended.
fn write_strip(rt: &HostRuntime, strip: &File, from: Version, first: Run) {
    let gone = go_through(rt, strip, from, true);
    let settled = gone.read & gone.written
        && outside::or_tell(rt, OUTPUT, outside::settle_output(rt)).is_some();
    match end_of(first, gone.run, gone.read, gone.written, settled) {
        None => {}
        Some(End::Changed) => outside::tell(
            rt,
            "carry: the strip changed while it was carried: what was written is not to be used\n",
        ),
        Some(End::Well) => {
            io::print_decimal(REPLY_FILENO, WELL);
        }
    }
}

// Judges a strip of this version, and writes it where nothing is refused.
fn carry_from(rt: &HostRuntime, strip: &File, from: Version) {
    let gone = go_through(rt, strip, from, false);
    let first = gone.run;
    match told_of(first, gone.read & gone.written) {
        None => {}
        Some(Ok(n)) => {
            let _ = eprintln!(rt; "{n} bytes");
            write_strip(rt, strip, from, first);
        }
        Some(Err(refused)) => {
            let _ = eprintln!(rt; "{} R {}", refused.number, refused.reply);
            io::print_decimal(REPLY_FILENO, u64::from(refused.reply));
        }
    }
}

// Whether the words name the strip: behind the way comes `--file`, and then the path.
fn is_named(rt: &HostRuntime) -> bool {
    let mut word = io::buffer();
    let n = outside::word(rt, 2, &mut word);
    outside::word_count(rt) == 4 && &word[..n] == FILE_WORD
}

// The way that the first word says, where there is one word, or where the others name the strip.
fn asked(rt: &HostRuntime) -> Option<Way> {
    let mut word = io::buffer();
    if outside::word_count(rt) == 2 || is_named(rt) {
        let n = outside::word(rt, 1, &mut word);
        way_of(&word[..n])
    } else {
        None
    }
}

// Whether standard input is something that can be opened once more and read from its start. A pipe and a socket are not: to open
// one could wait for ever.
fn is_kept(rt: &HostRuntime) -> bool {
    match fs::metadata(rt, STRIP) {
        Ok(known) => {
            let kind = known.file_type();
            !(kind.is_fifo() | kind.is_socket())
        }
        Err(_) => false,
    }
}

// A file that has places, and nothing in its stead where it has none, as a terminal has.
fn with_places(mut file: File) -> Option<File> {
    file.stream_position().ok()?;
    Some(file)
}

// Hands an opened strip on. Where there is none, or one that cannot be read twice, that is told.
fn told_of_open(rt: &HostRuntime, strip: Option<File>, text: &str) -> Option<File> {
    if strip.is_none() {
        outside::tell(rt, text);
    }
    strip
}

// Opens the strip that the last word names.
fn open_named(rt: &HostRuntime) -> Option<File> {
    let opened = outside::open_word(rt, 3, OpenOptions::new().read(true));
    let file = outside::or_tell(rt, "carry: the strip", opened)?;
    told_of_open(
        rt,
        with_places(file),
        "carry: the strip cannot be read twice: give a file, and no pipe\n",
    )
}

// Opens standard input once more, where that can be done.
fn open_input(rt: &HostRuntime) -> Option<File> {
    if !is_kept(rt) {
        return None;
    }
    with_places(fs::open(rt, STRIP).ok()?)
}

// Opens the strip: the one that the words name, or else standard input.
fn open_strip(rt: &HostRuntime) -> Option<File> {
    if is_named(rt) {
        open_named(rt)
    } else {
        told_of_open(
            rt,
            open_input(rt),
            "carry: standard input cannot be read twice: give a file, and no pipe\n",
        )
    }
}

fn main(rt: HostRuntime) {
    let way = asked(&rt);
    if let Some(strip) = open_strip(&rt) {
        match way {
            None => outside::tell(
                &rt,
                "carry: it takes one word, up or back: carry up < OLD.strip > NEW.strip\n",
            ),
            Some(Way::Up) => carry_from(&rt, &strip, Version::One),
            Some(Way::Back) => carry_from(&rt, &strip, Version::Two),
        }
    }
}
