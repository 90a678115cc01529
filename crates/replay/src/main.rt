// Answers questions, a line for each, on standard input, so that the answers of these crates can be
// held to the Rust's. It compares nothing itself. src/desk.rt says what a question is.
//
// A line ends with a line feed. What stands after the last line feed is cut, and is no question.
// The memory is fixed: input of any length goes through, and a line of any length.

#![tactic(auto)]

mod applier;
mod controller;
mod curve;
mod desk;
mod estimator;
mod figures;
mod limits;
mod lines;
mod part;
mod protector;
mod ratio;
mod ring;
mod speech;
mod whole;

use arrayvec::ArrayVec;
use desk::Desk;
use lines::Answers;
use std::io::Read;

// A line of 3,900 figures with its name. A longer one is no question, so what follows in it is not kept.
const LONGEST_LINE: usize = 35200;

// How far the run is: the line that is being read, the parts, and the answers that wait to be written.
#[derive(Drop)]
struct Run {
    line: ArrayVec<u8, LONGEST_LINE>,
    desk: Desk,
    answers: Answers,
}

impl Run {
    // A run at its start.
    fn new() -> Run {
        Run {
            line: ArrayVec::new(),
            desk: Desk::new(),
            answers: Answers::new(),
        }
    }

    // Takes the bytes that were read: a line feed ends the line, which is answered, and any other byte is kept.
    fn feed(&mut self, rt: &HostRuntime, input: &[u8]) {
        for byte in input {
            if *byte == b'\n' {
                self.answers.make_room(rt);
                self.desk.answer(self.line.as_slice(), &mut self.answers);
                self.line.clear();
            } else {
                let _ = self.line.try_push(*byte);
            }
        }
    }

    // Writes the answers that still wait. A line that has begun and was cut is no question.
    fn finish(&mut self, rt: &HostRuntime) {
        if !self.line.is_empty() {
            self.answers.no_question();
        }
        self.answers.write(rt);
    }
}

fn main(rt: HostRuntime) {
    let mut run = Run::new();
    // Nothing says that the input ends, and a proved loop has to: no run uses up so many turns.
    for _ in 0..u64::MAX {
        let mut input = io::large_buffer();
        // Nothing comes at the end of the input, and where a read fails.
        let n = rt.stdin().read(&mut input).unwrap_or(0);
        if n == 0 {
            break;
        }
        run.feed(&rt, &input[..n]);
    }
    run.finish(&rt);
}
