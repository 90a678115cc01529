// The sound and the figures that the parts are given, and the digest of what they make of it.
// oracle/speed has the same, so that both sides do the same work on the same numbers.

use units::figures::Figures;
use units::kinds::Dbfs;

// How loud each frame of a syllable is: 160 ms, with peaks 6 dB over full scale.
const SYLLABLE: [f32; 16] = [
    0.03125, 0.125, 0.25, 0.5, 1.0, 1.5, 2.0, 1.75, 1.25, 1.0, 0.75, 0.5, 0.25, 0.125, 0.0625,
    0.03125,
];

// How likely each four frames are speech: of 64 frames a reading of 40, a pause of 8, a cough of 4 and
// a pause of 12.
const SPEAKS: [f32; 16] = [
    1.0, 0.96875, 1.0, 0.984375, 1.0, 1.0, 0.953125, 1.0, 0.984375, 1.0, 0.5, 0.25, 1.0, 0.75,
    0.25, 0.125,
];

// The sounds: 0 is silence.
const SPEECH: u32 = 1;

// How loud the frame of a number is.
fn loudness(sound: u32, number: u32) -> f32 {
    let k = (number % 16) as usize;
    if sound == SPEECH { SYLLABLE[k] } else { 0.0 }
}

// 1 for speech and 0 for silence, to multiply with, so that no part is compiled for silence alone.
fn present(sound: u32) -> f32 {
    (sound % 2) as u16 as f32
}

// What is metered of the frame of a number. In speech the noise is louder with each quarter of 64 frames, so that
// the gain rises in the first two quarters and falls in the last. In silence nothing changes.
fn figures(sound: u32, number: u32) -> Figures {
    let k = (number / 4 % 16) as usize;
    let loud = present(sound);
    let rms = loud * (24 + number % 16) as u16 as f32 - 90.0;
    Figures {
        probability: loud * SPEAKS[k],
        rms: Dbfs(rms),
        peak: Dbfs(rms + 20.0),
        noise: Dbfs(loud * (number / 16 % 4 * 12) as u16 as f32 - 90.0),
        envelope: Dbfs(rms + 60.0),
    }
}

// The number after a number of the noise, below 2^31.
fn next(seed: u64) -> u64 {
    (seed % 2147483648 * 1103515245 + 12345) % 2147483648
}

// A sample of the noise at a place of a frame: pulses of 256 samples that fall from full scale.
fn sample(seed: u64, at: usize) -> f32 {
    let noise = (seed / 32768 % 65536) as u16 as f32 - 32768.0;
    let pulse = (256 - at % 256) as u16 as f32 * 0.00390625;
    noise * pulse
}

// Fills a frame, so loud, and answers the noise's number to go on from.
fn fill(frame: &mut [f32], seed: u64, loud: f32) -> u64 {
    let mut s = seed;
    for (i, x) in frame.iter_mut().enumerate() {
        s = next(s);
        *x = sample(s, i) * loud;
    }
    s
}

// A digest with one more float: its bits are added after a turn by one place.
pub(crate) fn mix(before: u32, x: f32) -> u32 {
    before.rotate_right(1).wrapping_add(bits::bits_of(x))
}

// A digest with all floats of a list.
pub(crate) fn digest(before: u32, list: &[f32]) -> u32 {
    list.iter().fold(before, |d, x| mix(d, *x))
}

// How far a run has come: the noise's number to go on from, the digest, the figures of the frame, and a level for
// the curve.
#[derive(Clone, Copy)]
pub struct Tape {
    pub seed: u64,
    pub digest: u32,
    pub figures: Figures,
    pub level: f32,
}

// A digest with the five figures of a frame.
fn mix_figures(before: u32, figures: Figures) -> u32 {
    let list = [
        figures.probability,
        figures.rms.0,
        figures.peak.0,
        figures.noise.0,
        figures.envelope.0,
    ];
    digest(before, &list)
}

// A run at its start.
pub(crate) fn start() -> Tape {
    Tape {
        seed: 1,
        digest: 0,
        figures: figures(0, 0),
        level: 0.0,
    }
}

// Takes what became of a frame into the digest, fills it with the frame of a number, and takes its figures and the
// level too, which goes up from 0 to 48,384 in 64 frames of speech and is 0 in silence.
fn renew(frame: &mut [f32], tape: Tape, sound: u32, number: u32) -> Tape {
    let taken = digest(tape.digest, frame);
    let seed = fill(frame, tape.seed, loudness(sound, number));
    let known = figures(sound, number);
    let level = present(sound) * (number % 64 * 768) as u16 as f32;
    Tape {
        seed,
        digest: mix(mix_figures(taken, known), level),
        figures: known,
        level,
    }
}

// The next frame of a sound. A sound above speech is the one below it, twice: no such sound is asked for, but a
// function that calls itself is written into no loop by the compiler, so each loop has the same cost besides its part.
pub(crate) fn turn(frame: &mut [f32], tape: Tape, sound: u32, number: u32) -> Tape {
    if SPEECH < sound {
        let once = turn(frame, tape, sound - 1, number);
        turn(frame, once, sound - 1, number)
    } else {
        renew(frame, tape, sound, number)
    }
}
