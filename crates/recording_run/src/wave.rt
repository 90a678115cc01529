// The search for the samples of a WAV file: which bytes are asked for next, and what follows of those that came.

ghost use Rattle.std.specs.Prelude.{◌≡◌, ◌≤◌};
ghost use Rattle.units.specs.Handed.{number_of};
ghost use Rattle.recording_run.specs.Wave.{unknown, padded, wanted, goes_on, after_start, after_name, after_head, fault_of, after_format, after_skip, took, first};

use units::refusals::Refusal;
use wav_format::head::{
    CHUNK_BYTES, DATA, FORMAT, FORMAT_BYTES, Format, START_BYTES, is_wave, read_chunk, read_format,
};

// So many bytes are skipped at a time, at most.
pub const SKIP_BYTES: usize = 4096;

// Why there are no samples to level: a read failed, which was told; the file does not start as a WAV file does; it ends
// before its samples; it says no format before them; its format has fewer than 16 bytes, or is not 16-bit PCM, or
// has another group of samples than two bytes for each channel, or a number of channels or a rate that is not taken.
#[derive(Clone, Copy)]
pub enum Fault {
    Unread,
    NoWave,
    Ends,
    NoFormat,
    FormatCut,
    NotPlain,
    NotTogether,
    Channels(u32),
    Rate(u32),
}

// Where the search is: at the twelve bytes of the start, at the head of a chunk, in a format chunk of so many bytes, or so
// many bytes before the next chunk; or it has found samples, of so many bytes, or ended.
#[derive(Clone, Copy)]
pub enum Stage {
    Start,
    Chunk,
    Format(u32),
    Skip(usize),
    Samples(u32),
    Over(Fault),
}

// Where the search is, and the format: all 0 as long as none has come. It is no Option: `take_bytes` takes every format, and
// looks at the channels alone.
#[derive(Clone, Copy)]
pub struct Search {
    pub stage: Stage,
    pub format: Format,
}

// The format before one has come.
fn no_format() -> Format
    ensures { result ≡ unknown }
{
    Format {
        channels: 0,
        samples: 0,
        mask: 0,
    }
}

// The search from the start of a file.
pub fn begin() -> Search
    ensures { result ≡ first }
{
    Search {
        stage: Stage::Start,
        format: no_format(),
    }
}

// So many bytes of a chunk, with the byte of padding that one of odd size has.
fn padded_size(size: u32) -> usize
    ensures { result ≡ padded size }
{
    size as usize + size as usize % 2
}

// How many bytes the search asks for next.
pub fn wanted_bytes(stage: Stage) -> usize
    ensures { result ≡ wanted stage }
{
    match stage {
        Stage::Start => START_BYTES,
        Stage::Chunk => CHUNK_BYTES,
        Stage::Format(size) => (size as usize).min(FORMAT_BYTES),
        Stage::Skip(left) => left.min(SKIP_BYTES),
        Stage::Samples(_) | Stage::Over(_) => 0,
    }
}

// Whether the search goes on.
pub fn goes_on(stage: Stage) -> bool
    ensures { result ≡ goes_on stage }
{
    !matches!(stage, Stage::Samples(_) | Stage::Over(_))
}

// After the first bytes.
fn after_start(bytes: &[u8]) -> Stage
    ensures { result ≡ after_start bytes.now }
{
    if is_wave(bytes) {
        Stage::Chunk
    } else {
        Stage::Over(Fault::NoWave)
    }
}

// After the head of a chunk of this name and size: samples are found where a format came before them.
fn after_name(channels: usize, name: u32, size: u32) -> Stage
    ensures { result ≡ after_name channels name size }
{
    if name == DATA {
        if 0 < channels {
            Stage::Samples(size)
        } else {
            Stage::Over(Fault::NoFormat)
        }
    } else if name == FORMAT {
        Stage::Format(size)
    } else {
        Stage::Skip(padded_size(size))
    }
}

// After the bytes of a chunk's head.
fn after_head(channels: usize, bytes: &[u8]) -> Stage
    ensures { result ≡ after_head channels bytes.now }
{
    if CHUNK_BYTES <= bytes.len() {
        let chunk = read_chunk(bytes);
        after_name(channels, chunk.name, chunk.size)
    } else {
        Stage::Over(Fault::Ends)
    }
}

// What is told of a format chunk that is refused. It begins with two numbers of four bytes: the first has the channels in
// its upper half, and the second is the rate.
fn fault_of(refused: Refusal, bytes: &[u8]) -> Fault
    ensures { result ≡ fault_of (number_of refused) bytes.now }
{
    let numbers = read_chunk(bytes);
    let channels = numbers.name / 65536;
    match refused {
        Refusal::Cut => Fault::FormatCut,
        Refusal::Version => Fault::NotPlain,
        Refusal::Length => Fault::NotTogether,
        _ => {
            if (1 <= channels) & (channels <= 8) {
                Fault::Rate(numbers.size)
            } else {
                Fault::Channels(channels)
            }
        }
    }
}

// After the bytes of a format chunk of this size: what is left of it is skipped.
fn after_format(size: u32, bytes: &[u8]) -> Search
    ensures { result ≡ after_format size bytes.now }
{
    match read_format(bytes) {
        Ok(said) => Search {
            stage: Stage::Skip(padded_size(size).saturating_sub(bytes.len())),
            format: said,
        },
        Err(refused) => Search {
            stage: Stage::Over(fault_of(refused, bytes)),
            format: no_format(),
        },
    }
}

// After bytes that were skipped. Where none came, none was left or the input has ended, and in both cases the head of the
// next chunk is due.
fn after_skip(left: usize, came: usize) -> Stage
    ensures { result ≡ after_skip left came }
{
    if 0 < came {
        Stage::Skip(left.saturating_sub(came))
    } else {
        Stage::Chunk
    }
}

// The search after the bytes that it asked for: these came, fewer only where the input ended; or a read failed.
pub fn take_bytes(search: Search, bytes: &[u8], failed: bool) -> Search
    ensures { result ≡ took search bytes.now failed }
{
    let stage = search.stage;
    let format = search.format;
    if failed {
        Search {
            stage: Stage::Over(Fault::Unread),
            format,
        }
    } else {
        match stage {
            Stage::Start => Search {
                stage: after_start(bytes),
                format,
            },
            Stage::Chunk => Search {
                stage: after_head(format.channels, bytes),
                format,
            },
            Stage::Format(size) => after_format(size, bytes),
            Stage::Skip(left) => Search {
                stage: after_skip(left, bytes.len()),
                format,
            },
            Stage::Samples(_) => search,
            Stage::Over(_) => search,
        }
    }
}
