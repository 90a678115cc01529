// Runs one part over many frames of one sound, so that the instructions of a frame can be counted:
// docs/SPEED.md says how. It counts nothing itself.
//
// A line on standard input is five figures of eight hexadecimal digits with one space between them:
// the part (src/parts.rt), the sound (0 silence, 1 speech), the channels (1 to 8), the samples of a
// channel (up to 480) and the frames. The answer is a line of two figures: a digest of all that the
// part made, and 1 where it refused a frame. There may be as many lines as fit into 4,096 bytes.

#![tactic(auto)]

mod parts;
mod sound;

ghost use Rattle.std.specs.Prelude.{◌≤◌};

use parts::{Ask, Outcome};
use std::io::Read;

// A line: five figures, with a byte behind each.
type Line = [u8; 45];

// The figure of eight digits that stands at a place of a line. Whatever is no digit counts as 0.
fn figure(line: &Line, at: usize) -> u32 {
    match words::read(line, at) {
        Ok(bits) | Err(bits) => bits,
    }
}

// What the part that is asked for makes of frames of that size.
fn outcome(part: u32, sound: u32, channels: usize, samples: usize, frames: u32) -> Outcome
    requires { (channels ≤ 8) × (samples ≤ 480) }
{
    let mut frame = [0.0; 3840];
    parts::run(
        &mut frame[..channels * samples],
        Ask {
            part,
            sound,
            channels,
            samples,
            frames,
        },
    )
}

// Writes the answer to a line. Where that fails, nothing comes of it.
fn write(rt: &HostRuntime, outcome: Outcome) {
    let mut line = *b"00000000 00000000\n";
    words::put(&mut line, 0, outcome.digest);
    words::put(&mut line, 9, u32::from(outcome.refused));
    let _ = rt.write_all(&line);
}

// Answers each line. What is behind the last whole one is none.
fn answer(rt: &HostRuntime, input: &[u8]) {
    let (lines, _) = input.as_chunks::<45>();
    for line in lines {
        let made = outcome(
            figure(line, 0),
            figure(line, 9),
            figure(line, 18).min(8) as usize,
            figure(line, 27).min(480) as usize,
            figure(line, 36),
        );
        write(rt, made);
    }
}

fn main(rt: HostRuntime) {
    let mut input = io::buffer();
    let n = rt.stdin().read(&mut input).unwrap_or(0);
    answer(&rt, &input[..n]);
}
