// Levels a recording: reads a WAV file of 16-bit samples from standard input, and for each 10 ms the figures in the strip
// that the first word names, and the gaps before them, and writes the levelled WAV file to standard output, or to the file
// that a second word names. The words `--ring N` before them say how many peaks the protector remembers, 1 to 16; without
// them it is 4. Whatever ends it before is told on standard error, and so is each minute.
//
// Without a word it meters the WAV file: to standard output it writes twelve bytes, and then twelve for each 10 ms, as the
// crate `loudness` has them.
//
// A program has no exit status. The last that it does where all went well is to write 0 to descriptor 3, and where the strip
// was refused, the number of the refusal; in every other case it writes nothing there.
//
// The memory is fixed: a recording of any length goes through.

#![tactic(auto)]

mod input;
mod levelling;
mod metering;
mod output;
mod strip;
mod told;
mod wave;

use levelling::{Both, Desk, level};
use metering::meter_samples;
use output::{outlet_of, write};
use recording_run::answer::of_refusal;
use recording_run::levelling::after_write;
use recording_run::strip::Source;
use recording_run::wave::{Search, Stage};
use ring_word::ring_asked;
use std::fs::{File, OpenOptions};
use std::io::Result;
use strip::draw_next;
use strip_format::Head;
use strip_reader::Got;
use units::refusals::Refusal;
use wav_format::head::LONGEST_HEAD;
use wave::find;

// What the command asks for: the strip, the number of the word that may name the output, and how many peaks the protector
// remembers.
#[derive(Clone, Copy)]
struct Wish<'a> {
    strip: &'a File,
    output: usize,
    capacity: u32,
}

// Levels the samples that were found, whose chunk says this size: the head of the levelled file, then the frames. The output
// is opened once there is a head to write.
fn with_samples(
    rt: &HostRuntime,
    wish: Wish<'_>,
    block: &mut [u8],
    source: Source,
    head: Head,
    search: Search,
    size: u32,
) {
    let mut bytes = [0u8; LONGEST_HEAD];
    let format = search.format;
    match recording_run::levelling::begin(head, wish.capacity, format, size, &mut bytes) {
        Ok(begun) => {
            if let Some(output) = output::open(rt, wish.output) {
                let out = outlet_of(&output);
                let desk = Desk {
                    strip: wish.strip,
                    out,
                    format,
                    size,
                };
                let run = after_write(begun.run, write(rt, out, &bytes, begun.head));
                let both = Both { run, source };
                told::at_end(level(rt, desk, block, both));
            }
        }
        Err(Refusal::Shape) => told::samples_differ(rt, head.samples, format.samples),
        Err(refused) => refuse(rt, refused.number()),
    }
}

// Tells that a strip is refused at its head, and with which reply.
fn refuse(rt: &HostRuntime, reply: u32) {
    told::refused(rt, reply, 0);
    told::at_end(of_refusal(reply));
}

// Levels the samples that were found with a strip. The first that comes out of it is its head, or a refusal, or nothing
// where a read failed, which was told.
fn with_strip(rt: &HostRuntime, wish: Wish<'_>, search: Search, size: u32) {
    let mut block = io::buffer();
    let drawn = draw_next(rt, wish.strip, &mut block, recording_run::strip::begin());
    let source = drawn.source;
    match drawn.got {
        Got::Head(head) => with_samples(rt, wish, &mut block, source, head, search, size),
        Got::Refused(reply) => refuse(rt, reply),
        Got::More | Got::Record(_) | Got::Gap | Got::End => {}
    }
}

// Levels the recording. A search that is over has found samples, or is told. It comes before the first look at the strip, which
// a meter may still be making of the same sound.
fn with_sound(rt: &HostRuntime, wish: Wish<'_>) {
    let search = find(rt);
    match search.stage {
        Stage::Start | Stage::Chunk | Stage::Format(_) | Stage::Skip(_) => {}
        Stage::Samples(size) => with_strip(rt, wish, search, size),
        Stage::Over(fault) => told::of_search(rt, fault),
    }
}

// Opens the strip that the word of this number names.
fn open_strip(rt: &HostRuntime, word: usize) -> Result<File> {
    let mut how = OpenOptions::new();
    how.read(true);
    outside::open_word(rt, word, &how)
}

// Meters the recording. A search that is over has found samples, or is told.
fn without_strip(rt: &HostRuntime) {
    let search = find(rt);
    match search.stage {
        Stage::Start | Stage::Chunk | Stage::Format(_) | Stage::Skip(_) => {}
        Stage::Samples(size) => told::at_end(meter_samples(rt, search, size)),
        Stage::Over(fault) => told::of_search(rt, fault),
    }
}

// What the words ask for of the ring, where they can have it.
fn asked(rt: &HostRuntime) -> Option<ring_word::Wish> {
    let mut first = io::buffer();
    let mut second = io::buffer();
    let n = outside::word(rt, 1, &mut first);
    let m = outside::word(rt, 2, &mut second);
    ring_asked(&first[..n], &second[..m]).ok()
}

// Levels the recording with the strip that the word of this number names. The word after it may name the output.
fn with_words(rt: &HostRuntime, from: usize, capacity: u32) {
    let strip = outside::or_tell(rt, "recording: the strip", open_strip(rt, from));
    if let Some(file) = strip {
        let wish = Wish {
            strip: &file,
            output: from.wrapping_add(1),
            capacity,
        };
        with_sound(rt, wish);
    }
}

// Levels the recording as so many words ask for.
fn with_ring(rt: &HostRuntime, count: usize, ring: ring_word::Wish) {
    match count.wrapping_sub(ring.from) {
        1 | 2 => with_words(rt, ring.from, ring.capacity),
        _ => outside::tell(
            rt,
            "recording: it takes the path of a strip, and may take that of the levelled file: recording [--ring N] STRIP [OUT] < in.wav\n",
        ),
    }
}

fn main(rt: HostRuntime) {
    let count = outside::word_count(&rt);
    if count <= 1 {
        without_strip(&rt);
    } else if let Some(ring) = asked(&rt) {
        with_ring(&rt, count, ring);
    } else {
        outside::tell(&rt, "recording: --ring wants a number from 1 to 16\n");
    }
}
