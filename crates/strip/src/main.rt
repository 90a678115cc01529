// Reads a strip from standard input, runs a new chain over it, and prints a line for each record as soon as it came:
// strip_run says which. The words `--ring N` say how many peaks the protector remembers, 1 to 16; without them it is 4.
// A read that fails and output that cannot be written end the run with a message on standard
// error. Otherwise the last that it does is to write the reply's number to descriptor 3, in decimal and with no line end: 0
// where the strip was read to its end, and else the number of the refusal. So whoever opens that descriptor knows that all
// lines were written; where it is closed, nothing is told.
//
// The memory is fixed: a strip of any length goes through.

#![tactic(auto)]

ghost use Rattle.std.specs.Prelude.{◌≡◌, ◌≤◌, length, IfSome};
ghost use Rattle.io.specs.Counts.{IsPrefixLen};

use ring_word::{Wish, ring_asked};
use std::io::Read;
use strip_run::{Run, verdict_of};

// So many bytes are read at a time: the lines of as many records have room in 65,536 bytes.
const BLOCK: usize = 512;

// The descriptor that the reply's number is written to.
const REPLY_FILENO: i32 = 3;

// What a message calls standard output.
const OUTPUT: &str = "strip: standard output";

// Reads a block, and answers how many bytes came, none at the input's end. A read that fails is told.
fn read_block(rt: &HostRuntime, block: &mut [u8]) -> Option<usize>
    ensures { IfSome result (λ n. IsPrefixLen n block.new) }
{
    outside::or_tell(rt, "strip: standard input", rt.stdin().read(block))
}

// Takes a block, writes its lines, and answers the run after it, and whether they were written. Where not, it is told.
fn take_block(rt: &HostRuntime, run: Run, block: &[u8], out: &mut [u8]) -> (Run, bool) {
    match run.take(block, out) {
        Ok(taken) => {
            let written = outside::or_tell(rt, OUTPUT, rt.write_all(&out[..taken.length]));
            (taken.run, written.is_some())
        }
        Err(_) => {
            outside::tell(rt, "strip: the lines do not fit\n");
            (run, false)
        }
    }
}

// Runs the strip with rings of this capacity: takes the blocks one after the other. A proved loop has to end, so it has a last
// turn, which no run comes to.
fn run_strip(rt: &HostRuntime, capacity: u32) {
    let mut block = [0u8; BLOCK];
    let mut out = io::large_buffer();
    let mut run = Run::new(capacity);
    let mut read = true;
    let mut written = true;
    for _ in 0..u64::MAX {
        let Some(n) = read_block(rt, &mut block) else {
            read = false;
            break;
        };
        (run, written) = take_block(rt, run, &block[..n], &mut out);
        if !(written & run.desk.more) {
            break;
        }
    }
    // Output is settled where all went well so far; what fails there is told as a write that fails is.
    let settled = read & written
        && outside::or_tell(rt, OUTPUT, outside::settle_output(rt)).is_some();
    if let Some(reply) = verdict_of(run, read, written, settled) {
        io::print_decimal(REPLY_FILENO, u64::from(reply));
    }
}

// What the words ask for, where it can be had.
fn asked(rt: &HostRuntime) -> Option<Wish> {
    let mut first = io::buffer();
    let mut second = io::buffer();
    let n = outside::word(rt, 1, &mut first);
    let m = outside::word(rt, 2, &mut second);
    ring_asked(&first[..n], &second[..m]).ok()
}

fn main(rt: HostRuntime) {
    match asked(&rt) {
        Some(wish) if outside::word_count(&rt) <= wish.from => run_strip(&rt, wish.capacity),
        _ => outside::tell(
            &rt,
            "strip: it may take the words --ring N, with N from 1 to 16: strip [--ring N] < FILE.strip\n",
        ),
    }
}
