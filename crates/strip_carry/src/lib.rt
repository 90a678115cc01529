// A strip carried to the other version: one of version 1 up to version 2, and one of version 2 back to version 1. Whole, from
// one buffer to another; and block by block, of any length.

#![tactic(auto)]

ghost use Rattle.std.specs.Prelude.{◌≡◌, ◌/◌, ◌<◌, ◌≤◌, ◌++◌, length, drop, IfOk, IfErr};
ghost use Rattle.strip_format.specs.Format as Format;
ghost use Rattle.strip_format.specs.declared.Version.TheVariants as Versions;
ghost use Rattle.strip_reader.specs.Reader as Reading;
ghost use Rattle.strip_reader.specs.Reader.{handed};
ghost use Rattle.strip_reader.specs.Telling.{ended};
ghost use Rattle.strip_carry.specs.Carry.{other, carried, carried_out};
ghost use Rattle.strip_carry.specs.Run.{said, not_said, passed_by, ended_with, shown, told, line_of, line_out, new, run_of, taken_of, out_of, is_up, is_back, way_of, told_of, same, end_of};
ghost use Rattle.strip_carry.specs.Seen.{bytes_ran, taken_seen, carried_seen, told_seen, end_seen};

use strip_format::{HEAD_BYTES, Head, Version, write_gap, write_head, write_record};
use strip_reader::{Got, Reader};
use units::figures::Figures;
use units::refusals::Refusal;

// The reply's number where nothing is refused.
const DONE: u32 = 0;

// What a strip is refused with, by its number in the replies, and the record that this is about, which is 0 for the head and for
// the buffer. It is a number, and no `Refusal`: `told_of` answers any that it finds in a tally.
#[derive(Clone, Copy, Debug, PartialEq, Eq, Hash)]
pub struct Refused {
    pub reply: u32,
    pub number: u64,
}

// What was seen of a strip so far: the version that it is carried to; the number of what comes next, 0 for the head; whether
// the strip goes on; the reply, which is 9 from the first thing on that cannot be said, or what the strip is refused with,
// and the record that it is about; the threshold, 0 before the head; and how many bytes were put out. The reply is a number,
// and no `Refusal`: `take`, `told_of` and `end_of` take any number there.
#[derive(Clone, Copy)]
pub struct Tally {
    pub to: Version,
    pub number: u64,
    pub more: bool,
    pub reply: u32,
    pub at: u64,
    pub threshold: u32,
    pub length: u64,
}

// How far a strip is carried: its reader, what was seen of it, and how many bytes of it came, which is where its next block
// begins.
#[derive(Clone, Copy)]
pub struct Run {
    pub reader: Reader,
    pub tally: Tally,
    pub place: u64,
}

// The tally that goes on, and how many bytes were put out.
#[derive(Clone, Copy)]
struct Line {
    tally: Tally,
    length: usize,
}

// The run that goes on, and how many bytes were put out.
#[derive(Clone, Copy)]
pub struct Taken {
    pub run: Run,
    pub length: usize,
}

// Which way a strip is carried: up to version 2, or back to version 1.
#[derive(Clone, Copy, Debug, PartialEq, Eq, Hash)]
pub enum Way {
    Up,
    Back,
}

// What is told at the end, where no read, no write and not the close of the output failed: that the strip is not the one that
// was read first, or that all is well.
#[derive(Clone, Copy, Debug, PartialEq, Eq, Hash)]
pub enum End {
    Changed,
    Well,
}

// The words that say a way.
const UP: &[u8] = b"up";

const BACK: &[u8] = b"back";

// The version that a strip of this one is carried to.
fn other(version: Version) -> Version
    ensures { result ≡ other version }
{
    match version {
        Version::One => Version::Two,
        Version::Two => Version::One,
    }
}

// The next thing is counted.
#[tactic(auto, unfolding(crate::specs::Run::passed_by))]
fn counted(tally: Tally) -> Tally
    ensures { result ≡ (passed_by tally).desk }
{
    Tally {
        number: tally.number.wrapping_add(1),
        more: true,
        ..tally
    }
}

// The next thing of a strip of which something cannot be said: it is counted, and nothing is put out.
#[tactic(auto, unfolding(crate::specs::Run::passed_by))]
fn pass_by(tally: Tally) -> Line
    ensures { result ≡ line_of (passed_by tally) }
{
    Line {
        tally: counted(tally),
        length: 0,
    }
}

// The next thing, of which the other version's writer says how many bytes it wrote. What the writer refuses cannot be said.
#[tactic(auto, unfolding(crate::specs::Run::said, crate::specs::Run::not_said, crate::specs::Run::passed_by, units::specs::Handed::number_of))]
fn count(tally: Tally, written: Result<usize, Refusal>) -> Line
    ensures said { IfOk written (λ n. result ≡ record { tally = said tally n; length = n }) }
    ensures not_said { IfErr written (λ e. result ≡ line_of (not_said tally)) }
{
    let next = counted(tally);
    match written {
        Ok(n) => Line {
            tally: Tally {
                length: tally.length.wrapping_add(n as u64),
                ..next
            },
            length: n,
        },
        Err(_) => Line {
            tally: Tally {
                reply: Refusal::Unsaid.number(),
                at: tally.number,
                ..next
            },
            length: 0,
        },
    }
}

// The head, in the version that the strip is carried to. This and the two that follow stay three: as one they would take the
// writer as a closure, and the clauses would have to say once more what each writer promises, which is no plainer.
fn carry_head(tally: Tally, head: Head, out: &mut [u8]) -> Line
    requires { length (shown tally (Reading.head head)).line ≤ length out.old }
    ensures value { result ≡ line_of (shown tally (Reading.head head)) }
    ensures out_after { out.new ≡ line_out (shown tally (Reading.head head)) out.old }
{
    let known = Tally {
        more: true,
        threshold: head.threshold,
        ..tally
    };
    if tally.reply != DONE {
        return pass_by(known);
    }
    let version = tally.to;
    let carried = Head { version, ..head };
    let written = write_head(carried, out);
    count(known, written)
}

// The figures of a frame.
fn carry_figures(tally: Tally, figures: Figures, out: &mut [u8]) -> Line
    requires { length (shown tally (Reading.entry (Format.figures figures))).line ≤ length out.old }
    ensures value { result ≡ line_of (shown tally (Reading.entry (Format.figures figures))) }
    ensures out_after { out.new ≡ line_out (shown tally (Reading.entry (Format.figures figures))) out.old }
{
    if tally.reply != DONE {
        return pass_by(tally);
    }
    let written = write_record(figures, out);
    count(tally, written)
}

// A gap.
fn carry_gap(tally: Tally, out: &mut [u8]) -> Line
    requires { length (shown tally (Reading.entry Format.gap)).line ≤ length out.old }
    ensures value { result ≡ line_of (shown tally (Reading.entry Format.gap)) }
    ensures out_after { out.new ≡ line_out (shown tally (Reading.entry Format.gap)) out.old }
{
    if tally.reply != DONE {
        return pass_by(tally);
    }
    let written = write_gap(tally.to, out);
    count(tally, written)
}

// The strip ends, with a reply and the record that it is about.
#[tactic(auto, unfolding(crate::specs::Run::ended_with))]
fn end_with(tally: Tally, reply: u32, at: u64) -> Line
    ensures { result ≡ line_of (ended_with tally reply at) }
{
    Line {
        tally: Tally {
            more: false,
            reply,
            at,
            ..tally
        },
        length: 0,
    }
}

// Puts out what the strip hands out, in the other version.
#[tactic(auto, unfolding(crate::specs::Run::shown, strip_reader::specs::Reader::handed))]
fn show(tally: Tally, got: Got, out: &mut [u8]) -> Line
    requires { length (shown tally (handed got)).line ≤ length out.old }
    ensures value { result ≡ line_of (shown tally (handed got)) }
    ensures out_after { out.new ≡ line_out (shown tally (handed got)) out.old }
{
    match got {
        Got::More => Line { tally, length: 0 },
        Got::Head(head) => carry_head(tally, head, out),
        Got::Record(figures) => carry_figures(tally, figures, out),
        Got::Gap => carry_gap(tally, out),
        Got::End => end_with(tally, tally.reply, tally.at),
        Got::Refused(reply) => end_with(tally, reply, tally.number),
    }
}

// The same while the strip goes on; once it has ended nothing is put out.
#[tactic(auto, unfolding(crate::specs::Run::told))]
fn tell(tally: Tally, got: Got, out: &mut [u8]) -> Line
    requires { length (told tally (handed got)).line ≤ length out.old }
    ensures value { result ≡ line_of (told tally (handed got)) }
    ensures out_after { out.new ≡ line_out (told tally (handed got)) out.old }
{
    if tally.more {
        show(tally, got, out)
    } else {
        Line { tally, length: 0 }
    }
}

// Takes the bytes of a block, one after the other, and keeps nothing of what is put out: each line is written over the one
// before, and not behind it, as `take_bytes` does.
fn judge_bytes(run: Run, block: &[u8]) -> Run
    ensures { result ≡ run_of run.place (bytes_ran run block.now) }
{
    let mut reader = run.reader;
    let mut tally = run.tally;
    let mut scratch = [0u8; HEAD_BYTES];
    for &byte in block {
        let step = reader.take(byte);
        let line = tell(tally, step.got, &mut scratch);
        reader = step.reader;
        tally = line.tally;
    }
    Run {
        reader,
        tally,
        ..run
    }
}

// Takes the bytes of a block, one after the other. There is room for what they put out.
fn take_bytes(run: Run, block: &[u8], out: &mut [u8]) -> Taken
    requires { length (bytes_ran run block.now).lines ≤ length out.old }
    ensures run_after { result.run ≡ run_of run.place (bytes_ran run block.now) }
    ensures put_out { result.length ≡ length (bytes_ran run block.now).lines }
    ensures out_after { out.new ≡ (bytes_ran run block.now).lines ++ drop (length (bytes_ran run block.now).lines) out.old }
{
    let mut reader = run.reader;
    let mut tally = run.tally;
    let mut length = 0;
    for &byte in block {
        let step = reader.take(byte);
        let line = tell(tally, step.got, &mut out[length..]);
        reader = step.reader;
        tally = line.tally;
        length += line.length;
    }
    let run = Run {
        reader,
        tally,
        ..run
    };
    Taken { run, length }
}

// Ends with the strip. Nothing is put out then.
#[tactic(auto, using(crate::specs::Laws::Room::told_most), unfolding(strip_reader::specs::Telling::ended))]
fn finish(run: Run) -> Run
    ensures { result ≡ run_of run.place (ended told run.reader run.tally) }
{
    let mut scratch = [0u8; HEAD_BYTES];
    let got = run.reader.finish();
    let line = tell(run.tally, got, &mut scratch);
    Run {
        tally: line.tally,
        ..run
    }
}

impl Run {
    // A run that has seen no byte of a strip of this version.
    #[tactic(auto, unfolding(crate::specs::Run::new, crate::specs::Run::at_start))]
    pub fn new(from: Version) -> Run
        ensures { result ≡ new from }
    {
        let to = other(from);
        Run {
            reader: Reader::of(from),
            tally: Tally {
                to,
                number: 0,
                more: true,
                reply: DONE,
                at: 0,
                threshold: 0,
                length: 0,
            },
            place: 0,
        }
    }

    // Takes the next block of the strip, of any length, and puts what it is carried to at the start of a lent buffer; an empty
    // block is the strip's end. Where the buffer cannot hold HEAD_BYTES for each byte of the
    // block and once more, it is refused with 8, and nothing changes.
    pub fn take(self, block: &[u8], out: &mut [u8]) -> Result<Taken, Refusal>
        ensures value { taken_seen self result ≡ taken_of self block.now (length out.old) }
        ensures out_after { out.new ≡ out_of self block.now out.old }
    {
        let room = out.len() / HEAD_BYTES;
        let place = self.place.wrapping_add(block.len() as u64);
        if room <= block.len() {
            return Err(Refusal::Room);
        }
        if block.is_empty() {
            let run = finish(self);
            return Ok(Taken {
                run: Run { place, ..run },
                length: 0,
            });
        }
        let taken = take_bytes(self, block, out);
        let run = taken.run;
        Ok(Taken {
            run: Run { place, ..run },
            ..taken
        })
    }
}

// Carries a whole strip of this version to the other one.
fn carry(from: Version, strip: &[u8], out: &mut [u8]) -> Result<usize, Refused>
    ensures value { carried_seen result ≡ carried from strip.now out.old }
    ensures out_after { out.new ≡ carried_out from strip.now out.old }
{
    let first = Run::new(from);
    let last = finish(judge_bytes(first, strip));
    let seen = last.tally;
    let space = out.len() as u64;
    if seen.reply != DONE {
        return Err(Refused {
            reply: seen.reply,
            number: seen.at,
        });
    }
    if space < seen.length {
        return Err(Refused {
            reply: Refusal::Room.number(),
            number: 0,
        });
    }
    let taken = take_bytes(first, strip, out);
    Ok(taken.length)
}

// Carries a strip of version 1 to version 2, to the start of a lent buffer, and answers how many bytes that are. Refused, in
// this order, are all that reading the strip to its end refuses, with 7 for a strip that is not of version 1; and a buffer
// that is too short with 8. Nothing is written then. Each strip of version 1 can be said in version 2, with one byte more.
pub fn to_two(strip: &[u8], out: &mut [u8]) -> Result<usize, Refused>
    ensures value { carried_seen result ≡ carried Versions.One strip.now out.old }
    ensures out_after { out.new ≡ carried_out Versions.One strip.now out.old }
{
    carry(Version::One, strip, out)
}

// Carries a strip of version 2 back to version 1, to the start of a lent buffer, and answers how many bytes that are. Refused,
// in this order, are all that reading the strip to its end refuses, with 7 for a strip that is not of version 2; a threshold
// above 200 with 9, at the head; a gap with 9, at the first one; and a buffer that is too short with 8. Nothing is written then.
pub fn to_one(strip: &[u8], out: &mut [u8]) -> Result<usize, Refused>
    ensures value { carried_seen result ≡ carried Versions.Two strip.now out.old }
    ensures out_after { out.new ≡ carried_out Versions.Two strip.now out.old }
{
    carry(Version::Two, strip, out)
}

// Whether a word is `up`, and whether it is `back`.
#[tactic(auto, unfolding(crate::specs::Run::is_up))]
fn is_up(word: &[u8]) -> bool
    ensures { result ≡ is_up word.now }
{
    word == UP
}

#[tactic(auto, unfolding(crate::specs::Run::is_back))]
fn is_back(word: &[u8]) -> bool
    ensures { result ≡ is_back word.now }
{
    word == BACK
}

// The way that a word says: `up` or `back`.
#[tactic(auto, unfolding(crate::specs::Run::way_of))]
pub fn way_of(word: &[u8]) -> Option<Way>
    ensures { result ≡ way_of word.now }
{
    if is_up(word) {
        Some(Way::Up)
    } else if is_back(word) {
        Some(Way::Back)
    } else {
        None
    }
}

// What is told once a strip was read for the first time, where each read went well or not: how many bytes the carried strip
// has, or its refusal. Where a read failed, or the strip goes on, nothing is.
#[tactic(auto, unfolding(crate::specs::Run::told_of))]
pub fn told_of(run: Run, read: bool) -> Option<Result<u64, Refused>>
    ensures { told_seen result ≡ told_of run read }
{
    let tally = run.tally;
    if !read | tally.more {
        return None;
    }
    if tally.reply != DONE {
        return Some(Err(Refused {
            reply: tally.reply,
            number: tally.at,
        }));
    }
    Some(Ok(tally.length))
}

// Whether two tallies are of the same strip, as far as it was told: both of one that can be said, with the same threshold, as many
// records, and as many bytes put out.
#[tactic(auto, unfolding(crate::specs::Run::same))]
fn same(first: Tally, second: Tally) -> bool
    ensures { result ≡ same first second }
{
    let over = !first.more & !second.more;
    let well = (first.reply == DONE) & (second.reply == DONE);
    let head = first.threshold == second.threshold;
    let records = (first.number == second.number) & (first.length == second.length);
    over & well & head & records
}

// What is told at the end, after a first and a second reading: whether the second strip is the first, where all went well.
#[tactic(auto, unfolding(crate::specs::Run::end_of))]
pub fn end_of(first: Run, second: Run, read: bool, written: bool, closed: bool) -> Option<End>
    ensures { end_seen result ≡ end_of first second read written closed }
{
    if read & written & closed {
        if same(first.tally, second.tally) {
            Some(End::Well)
        } else {
            Some(End::Changed)
        }
    } else {
        None
    }
}
