// A run over the frames of a recording: how many bytes are due, what becomes of a frame, and what is told.

ghost use Rattle.std.specs.Prelude.{◌≡◌, ◌≤◌, Some};
ghost use Rattle.recording_run.specs.declared.levelling.Told.TheVariants.{Refused};
ghost use Rattle.units.specs.Handed.{handed};
ghost use Rattle.recording_run.specs.Levelling.{whole_groups, is_unknown, extent_of, frame_bytes, begun, opened, silenced, heard, minute, stopped, framed, after_gap, gapped, entered, after_write, behind_bytes, of_samples, of_rest, at_end, righted};

use chain::Chain;
use recording_frame::level_bytes;
use strip_format::Head;
use strip_reader::Got;
use units::figures::Figures;
use units::refusals::Refusal;
use wav_format::head::{Format, head_bytes, write_head};

// What a program writes that does not know the size of its samples, since it writes to a pipe: ffmpeg the first, and sox as
// many bytes of the second as are whole groups of samples. They end where the input ends then.
const STREAM: u32 = 0xffff_ffff;

const PIPE: usize = 0x7fff_f000;

// The largest number that four bytes say, and the bytes of a file that stand before the size of all that follows them.
const MOST: usize = 4294967295;

const SIZED_BYTES: usize = 8;

// So many frames are a minute.
const MINUTE: u64 = 6000;

// What is told of a run: that so many minutes are levelled; that the strip ends before the recording, and has no
// record of this number; that a record is refused with this reply, and its number; that so many bytes of the samples are
// missing; that the file says that it has no samples, and goes on behind them; or that the strip goes on with the record of
// this number after the recording. The reply of a record is a number, and no Refusal: a run takes any number.
#[derive(Clone, Copy)]
pub enum Told {
    Minute(u64),
    StripEnds(u64),
    Refused(u32, u64),
    Missing(usize),
    SaysNone,
    StripGoesOn(u64),
}

// How far a run is: the chain, the number of the next record, which may be a gap, how many frames are levelled, how many
// bytes of samples are still to come, whether it goes on, whether all went well so far, and the reply with which the strip
// was refused, which is 0 where it was not: a number, and no Refusal, since `after_write` and `of_run` take any number.
#[derive(Clone, Copy)]
pub struct Run {
    pub chain: Chain,
    pub number: u64,
    pub frames: u64,
    pub left: usize,
    pub more: bool,
    pub well: bool,
    pub refused: u32,
}

// Whether it is known how many bytes of samples there are; how many the levelled file says; and how many are read, at most.
#[derive(Clone, Copy)]
pub struct Extent {
    pub known: bool,
    pub size: u32,
    pub left: usize,
}

// How many bytes the head of the levelled file has, and the run before its first frame.
#[derive(Clone, Copy)]
pub struct Begun {
    pub head: usize,
    pub run: Run,
}

// The run after what came out of the strip for a frame, what is told of it, how many bytes of the frame are written, and
// whether the frame still waits for its figures, since a gap came.
#[derive(Clone, Copy)]
pub struct Turn {
    pub run: Run,
    pub told: Option<Told>,
    pub n: usize,
    pub again: bool,
}

// So many bytes, without those of a group of samples that is not whole. Of more than 8 channels, and of none, it is 0.
#[tactic(auto, unfolding(crate::specs::Levelling::whole_groups))]
fn whole_groups(n: usize, channels: usize) -> usize
    ensures value { result ≡ whole_groups n channels }
    ensures upper_bound { result ≤ n }
{
    match channels {
        1..=8 => n - n % (2 * channels),
        _ => 0,
    }
}

// Whether a size of samples is one that a program writes that does not know it. Every other size is known, however large.
fn is_unknown(size: u32, channels: usize) -> bool
    ensures { result ≡ is_unknown size channels }
{
    (size == STREAM) | (size as usize == whole_groups(PIPE, channels))
}

// How many bytes there are of samples whose chunk says this size. Where it is unknown, the levelled file says the same.
pub fn extent_of(size: u32, channels: usize) -> Extent
    ensures { result ≡ extent_of size channels }
{
    let known = !is_unknown(size, channels);
    let whole = whole_groups(size as usize, channels);
    Extent {
        known,
        size: floats::pick(known, whole as u32, size),
        left: floats::pick(known, whole, usize::MAX),
    }
}

// The bytes of a frame of this shape: none where it has more channels or samples than any frame.
pub fn frame_bytes(channels: usize, samples: usize) -> usize
    ensures value { result ≡ frame_bytes channels samples }
    ensures upper_bound { result ≤ 7680 }
{
    if channels <= 8 && samples <= 480 {
        2 * (channels * samples)
    } else {
        0
    }
}

// Begins a run with the head of a strip, the number of peaks that the protector remembers, and samples of this format,
// whose chunk says this size: the head of the levelled file in the first bytes of a lent buffer, and a new chain.
// Refused is a strip that is for another number of samples, for its shape, then what the chain refuses, which is a capacity
// that is not from 1 to 16, and then what the head is refused with; nothing is written then.
pub fn begin(
    head: Head,
    capacity: u32,
    format: Format,
    size: u32,
    out: &mut [u8],
) -> Result<Begun, Refusal>
    ensures value { result ≡ handed (begun head capacity format.channels format.samples format.mask size out.old).begun.reply (opened (begun head capacity format.channels format.samples format.mask size out.old).begun) }
    ensures out_after { out.new ≡ (begun head capacity format.channels format.samples format.mask size out.old).out }
{
    if format.samples != head.samples {
        return Err(Refusal::Shape);
    }
    let settings = head.settings;
    let chain = Chain::new(settings, head.threshold, head.samples, capacity)?;
    let extent = extent_of(size, format.channels);
    let long = head_bytes(format.mask);
    write_head(format, extent.size, out)?;
    Ok(Begun {
        head: long,
        run: Run {
            chain,
            number: 1,
            frames: 0,
            left: extent.left,
            more: true,
            well: true,
            refused: 0,
        },
    })
}

// Stores 0 in the bytes from a place on.
fn silence(bytes: &mut [u8], from: usize)
    ensures { bytes.new ≡ silenced from bytes.old }
{
    for i in from..bytes.len() {
        bytes[i] = 0;
    }
}

// Hears a frame of which so many bytes came: those of whole groups of samples, and silence behind them. It answers how many
// they are.
pub fn hear(bytes: &mut [u8], came: usize, channels: usize) -> usize
    ensures value { result ≡ whole_groups came channels }
    ensures bytes_after { bytes.new ≡ silenced (whole_groups came channels) bytes.old }
{
    let n = whole_groups(came, channels);
    silence(bytes, n);
    n
}

// The run once so many bytes of a frame were heard: it ends where there are none, and where a read failed.
pub fn heard_run(run: Run, n: usize, failed: bool) -> Run
    ensures { result ≡ heard run n failed }
{
    Run {
        more: (0 < n) & !failed,
        well: !failed,
        ..run
    }
}

// What is told once so many frames are levelled: each minute.
fn told_minute(frames: u64) -> Option<Told>
    ensures { result ≡ minute frames }
{
    if frames % MINUTE == 0 {
        Some(Told::Minute(frames / MINUTE))
    } else {
        None
    }
}

// A run that ends before its next frame, which is not written: the strip was refused with this reply, or with 0 was not.
fn stop(run: Run, told: Option<Told>, refused: u32) -> Turn
    ensures { result ≡ stopped run told refused }
{
    Turn {
        run: Run {
            more: false,
            well: false,
            refused,
            ..run
        },
        told,
        n: 0,
        again: false,
    }
}

// A run that ends at a record or a gap that is refused with this reply: it is told, and kept to the end.
fn refuse(run: Run, reply: u32) -> Turn
    ensures { result ≡ stopped run (Some (Refused reply run.number)) reply }
{
    stop(run, Some(Told::Refused(reply, run.number)), reply)
}

// Levels a frame of which so many bytes were heard, with its figures.
fn take_figures(
    run: Run,
    n: usize,
    figures: Figures,
    bytes: &mut [u8],
    channels: usize,
    samples: usize,
) -> Turn
    ensures value { result ≡ (framed run n figures bytes.old channels samples).turn }
    ensures bytes_after { bytes.new ≡ (framed run n figures bytes.old channels samples).bytes }
{
    match level_bytes(run.chain, figures, bytes, channels, samples) {
        Ok(chain) => {
            let frames = run.frames.wrapping_add(1);
            Turn {
                run: Run {
                    chain,
                    number: run.number.wrapping_add(1),
                    frames,
                    left: run.left.saturating_sub(n),
                    more: true,
                    well: true,
                    refused: 0,
                },
                told: told_minute(frames),
                n,
                again: false,
            }
        }
        Err(refused) => refuse(run, refused.number()),
    }
}

// The run after a gap, with the chain that took it: the gap has the next number, and no sound.
pub(crate) fn after_gap(run: Run, chain: Chain) -> Run
    ensures { result ≡ after_gap run chain }
{
    let next = run.number.wrapping_add(1);
    Run {
        chain,
        number: next,
        ..run
    }
}

// Marks a gap that stands before the figures of a frame, which waits for them: none of its bytes are written. A chain that
// fails its test, which a run never has, refuses the gap, and the run ends.
fn take_gap(run: Run) -> Turn
    ensures { result ≡ gapped run }
{
    match run.chain.gap() {
        Ok(chain) => Turn {
            run: after_gap(run, chain),
            told: None,
            n: 0,
            again: true,
        },
        Err(no_gap) => refuse(run, no_gap.number()),
    }
}

// Levels a frame of which so many bytes were heard, with what came out of the strip for it. A gap is marked, and the frame
// waits for what comes next. The run ends where neither figures nor a gap came, and where the chain refuses them. The bytes
// stay as they were but where the frame is levelled. Nothing comes out where a read failed, which was told, and after the
// first time no head does.
pub fn take_entry(
    run: Run,
    n: usize,
    got: Got,
    bytes: &mut [u8],
    channels: usize,
    samples: usize,
) -> Turn
    ensures value { result ≡ (entered got run n bytes.old channels samples).turn }
    ensures bytes_after { bytes.new ≡ (entered got run n bytes.old channels samples).bytes }
{
    match got {
        Got::More => stop(run, None, 0),
        Got::Head(_) => stop(run, None, 0),
        Got::Record(figures) => take_figures(run, n, figures, bytes, channels, samples),
        Got::Gap => take_gap(run),
        Got::End => stop(run, Some(Told::StripEnds(run.number)), 0),
        Got::Refused(reply) => refuse(run, reply),
    }
}

// The run once its frame was written, or could not be.
pub fn after_write(run: Run, written: bool) -> Run
    ensures { result ≡ after_write run written }
{
    Run {
        more: run.more & written,
        well: run.well & written,
        ..run
    }
}

// How many bytes are looked for behind samples whose chunk says this size: one, where it says that there are none.
pub fn behind_bytes(size: u32) -> usize
    ensures { result ≡ behind_bytes size }
{
    floats::pick(size == 0, 1, 0)
}

// What is told of samples whose chunk says this size, where so many bytes did not come, and so many come behind them, of
// those that were looked for: that bytes are missing, where it is known how many there are; that the file says that it has
// none and goes on behind them; otherwise what else there is to tell.
pub(crate) fn told_of_samples(
    size: u32,
    channels: usize,
    left: usize,
    behind: usize,
    other: Option<Told>,
) -> Option<Told>
    ensures { result ≡ of_samples size channels left behind other }
{
    let extent = extent_of(size, channels);
    if extent.known & (0 < left) {
        Some(Told::Missing(left))
    } else if (size == 0) & (0 < behind) {
        Some(Told::SaysNone)
    } else {
        other
    }
}

// What is told of a strip that goes on, or does not, with the record of this number.
fn told_of_rest(goes: bool, number: u64) -> Option<Told>
    ensures { result ≡ of_rest goes number }
{
    goes.then_some(Told::StripGoesOn(number))
}

// What is told at the end of a run over samples whose chunk says this size, where so many bytes come behind them, of those
// that were looked for, and the strip goes on or does not: first of the samples, then that the strip goes on. Of a run that
// did not go well all is told.
pub fn told_at_end(run: Run, size: u32, channels: usize, behind: usize, goes: bool) -> Option<Told>
    ensures { result ≡ at_end run size channels behind goes }
{
    if run.well {
        told_of_samples(
            size,
            channels,
            run.left,
            behind,
            told_of_rest(goes, run.number),
        )
    } else {
        None
    }
}

// The head with the size that is true at the end of a run over samples whose chunk says this size, in the first bytes of a
// lent buffer, and how many bytes of it are to be written: none, where the run did not go well, where the head that was
// written is true, and where four bytes do not say how many bytes follow the first eight. The buffer stays as it was then.
pub fn put_right(run: Run, format: Format, size: u32, out: &mut [u8]) -> usize
    ensures value { result ≡ (righted run format.channels format.samples format.mask size out.old).n }
    ensures out_after { out.new ≡ (righted run format.channels format.samples format.mask size out.old).out }
{
    let length = head_bytes(format.mask);
    let most = MOST.saturating_sub(length.saturating_sub(SIZED_BYTES));
    let extent = extent_of(size, format.channels);
    let written = extent.left.saturating_sub(run.left);
    if written <= most {
        if run.well & !(written == extent.size as usize) {
            let done = write_head(format, written as u32, out).is_ok();
            floats::pick(done, length, 0)
        } else {
            0
        }
    } else {
        0
    }
}
