// The head of a WAV file: the twelve bytes it begins with, a chunk's eight, and the format chunk.

ghost use Rattle.std.specs.Prelude.{◌≡◌, ◌≤◌, ◌++◌, length, drop};
ghost use Rattle.units.specs.Handed.{handed};
ghost use Rattle.wav_format.specs.Head.{is_wave, chunk_of, is_sizes, format_refusal, format_of, said, head_length, following, head_bytes, put_head};

use crate::numbers::{four_at, put_fours, two_at};
use units::refusals::Refusal;

// The bytes that a file begins with, those of a chunk's head, the most of a format chunk that is looked at, and the
// bytes of a head that is written: without a mask, and with one.
pub const START_BYTES: usize = 12;

pub const CHUNK_BYTES: usize = 8;

pub const FORMAT_BYTES: usize = 40;

pub const HEAD_BYTES: usize = 44;

pub const LONGEST_HEAD: usize = 68;

// The names, as numbers: RIFF and WAVE, and those of the chunks of the format and of the samples.
const RIFF: u32 = 0x4646_4952;

const WAVE: u32 = 0x4556_4157;

pub const FORMAT: u32 = 0x2074_6d66;

pub const DATA: u32 = 0x6174_6164;

// The tags of plain samples, and of a format whose own tag comes later.
const PLAIN: u16 = 1;

const EXTENDED: u16 = 65534;

// A chunk's name and how many bytes follow its head.
#[derive(Clone, Copy)]
pub struct Chunk {
    pub name: u32,
    pub size: u32,
}

// The channels, the samples that a channel has in 10 ms, and the mask that says which speakers the channels are for. The
// mask is 0 where there is none: an extended format can say 0 itself, so an Option would have two values for no mask.
#[derive(Clone, Copy)]
pub struct Format {
    pub channels: usize,
    pub samples: usize,
    pub mask: u32,
}

// Whether these bytes are the start of a WAV file.
pub fn is_wave(start: &[u8]) -> bool
    ensures { result ≡ is_wave start.now }
{
    (four_at(start, 0) == RIFF) & (four_at(start, 8) == WAVE)
}

// What a chunk's head says; bytes that are not there count as 0.
pub fn read_chunk(bytes: &[u8]) -> Chunk
    ensures { result ≡ chunk_of bytes.now }
{
    Chunk {
        name: four_at(bytes, 0),
        size: four_at(bytes, 4),
    }
}

// Whether these are the sizes of a frame: 1 to 8 channels, each with the samples of 10 ms.
pub fn is_sizes(channels: usize, samples: usize) -> bool
    ensures { result ≡ is_sizes channels samples }
{
    (1 <= channels) & (channels <= 8) & frames::is_samples(samples)
}

// Refuses a format chunk: below 16 bytes as cut; where the samples are not plain ones of 16 bits for its version; where
// a group of samples has not two bytes for each channel for its length; and for its shape where the channels are not
// 1 to 8, or the samples of 10 ms are no frame's.
fn check_format(bytes: &[u8]) -> Result<(), Refusal>
    ensures { result ≡ handed (format_refusal bytes.now) tt }
{
    let tag = two_at(bytes, 0);
    let later = two_at(bytes, 24);
    let channels = two_at(bytes, 2) as usize;
    let rate = four_at(bytes, 4) as usize;
    let group = two_at(bytes, 12) as usize;
    let bits = two_at(bytes, 14);
    let plain = (tag == PLAIN) | ((tag == EXTENDED) & (later == PLAIN));
    let kind = plain & (bits == 16);
    let together = group == 2 * channels;
    let shape = (1 <= channels)
        & (channels <= 8)
        & (rate % 100 == 0)
        & frames::is_samples(rate / 100);
    if bytes.len() < 16 {
        Err(Refusal::Cut)
    } else if !kind {
        Err(Refusal::Version)
    } else if !together {
        Err(Refusal::Length)
    } else if !shape {
        Err(Refusal::Shape)
    } else {
        Ok(())
    }
}

// The channels, the samples of 10 ms and the mask that a format chunk says, where it is not refused. Only an extended
// format says a mask.
pub fn read_format(bytes: &[u8]) -> Result<Format, Refusal>
    ensures { result ≡ handed (format_of bytes.now).reply (said (format_of bytes.now)) }
{
    check_format(bytes)?;
    let tag = two_at(bytes, 0);
    let mask = four_at(bytes, 20);
    Ok(Format {
        channels: two_at(bytes, 2) as usize,
        samples: (four_at(bytes, 4) / 100) as usize,
        mask: if tag == EXTENDED { mask } else { 0 },
    })
}

// How many bytes a head with this mask has: without one, which is 0, it has 44, and with one 68.
pub fn head_bytes(mask: u32) -> usize
    ensures { result ≡ head_length mask }
{
    floats::pick(mask == 0, HEAD_BYTES, LONGEST_HEAD)
}

// How many bytes follow the first eight of a head of this length, as far as 32 bits say it.
fn following_bytes(length: usize, size: u32) -> u32
    requires in_bounds { 8 ≤ length }
    requires length_len_bound { length ≤ 68 }
    ensures { result ≡ following length size }
{
    let all = size as usize + (length - 8);
    if all <= 4294967295 {
        all as u32
    } else {
        4294967295
    }
}

// Stores a head in the first bytes of a buffer, as numbers of four bytes, some of which are two numbers of two bytes: nine
// of them, six more where a mask is said, the last four of which are the tag of plain samples, and two.
fn put_head(channels: u32, samples: u32, mask: u32, size: u32, out: &mut [u8])
    requires channels_bound { channels ≤ 8 }
    requires samples_bound { samples ≤ 480 }
    requires mask_in_bounds { head_length mask ≤ length out.old }
    ensures { out.new ≡ head_bytes channels samples mask size ++ drop (head_length mask) out.old }
{
    let none = mask == 0;
    let long = head_bytes(mask);
    let rest = following_bytes(long, size);
    let bytes = floats::pick(none, 16, 40);
    let tag = floats::pick(none, PLAIN, EXTENDED) as u32;
    let rate = samples * 100;
    let group = 2 * channels;
    let second = rate * group;
    let kind = tag + 65536 * channels;
    let width = group + 65536 * 16;
    let first = [RIFF, rest, WAVE, FORMAT, bytes, kind, rate, second, width];
    let more = [
        0x0010_0016,
        mask,
        PLAIN as u32,
        0x0010_0000,
        0xaa00_0080,
        0x719b_3800,
    ];
    let last = [DATA, size];
    let n = floats::pick(none, 0, 6);
    put_fours(&first, out, 0);
    put_fours(&more[..n], out, 36);
    put_fours(&last, out, long - 8);
}

// Writes the head of a file of this format with so many bytes of samples to the start of a lent buffer. Refused are
// channels or samples that are no frame's for their shape, and a buffer that is shorter than the head for want of room;
// nothing is written then.
pub fn write_head(format: Format, size: u32, out: &mut [u8]) -> Result<(), Refusal>
    ensures value { result ≡ handed (put_head format.channels format.samples format.mask size out.old).reply tt }
    ensures out_after { out.new ≡ (put_head format.channels format.samples format.mask size out.old).out }
{
    let channels = format.channels;
    let samples = format.samples;
    let mask = format.mask;
    if !is_sizes(channels, samples) {
        Err(Refusal::Shape)
    } else if out.len() < head_bytes(mask) {
        Err(Refusal::Room)
    } else {
        put_head(channels as u32, samples as u32, mask, size, out);
        Ok(())
    }
}
