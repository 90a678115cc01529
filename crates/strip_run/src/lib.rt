// A strip run through a new chain over silent one-channel frames, block by block, with the lines that it prints.

#![tactic(auto)]

ghost use Rattle.std.specs.Prelude.{◌≡◌, ◌/◌, ◌<◌, ◌≤◌, ◌++◌, ℕ, List, true, length, take, drop, IfOk, IfErr};
ghost use Rattle.units.specs.Handed.{number_of as number};
ghost use Rattle.chain.specs.Calls.{told, called};
ghost use Rattle.strip_lines.specs.Lines.{longest, number_of};
ghost use Rattle.strip_reader.specs.Reader.{handed};
ghost use Rattle.strip_reader.specs.Telling.{ran, ended};
ghost use Rattle.strip_run.specs.Lines.{after, refused_at, begun, silence, published, framed, gapped, shown};
ghost use Rattle.strip_run.specs.Lines as Printed;
ghost use Rattle.strip_run.specs.Run.{new, stopped, run_of, taken_of, out_of, taken_told, line_of, line_out, PutOrRefused, verdict_of};

use chain::{Chain, Next};
use strip_format::Head;
use strip_lines::{Kind, LONGEST, record_line, refusal_line};
use strip_reader::{Got, Reader};
use units::figures::Figures;
use units::refusals::Refusal;

// The largest number of samples that a channel has.
const SAMPLES: usize = 480;

// The chain, how many peaks its protector remembers, the number of what comes next, 0 for the head, whether the run goes on,
// and the reply's number: of the refusal that ended the run, and 0 as long as nothing is refused. It is a number, and no Refusal:
// `take` and `verdict_of` take any number here.
#[derive(Clone, Copy)]
pub struct Desk {
    pub chain: Chain,
    pub capacity: u32,
    pub number: u64,
    pub more: bool,
    pub reply: u32,
}

// How far a run is: the reader of the strip, and the desk.
#[derive(Clone, Copy)]
pub struct Run {
    pub reader: Reader,
    pub desk: Desk,
}

// The desk that goes on, and how many bytes its line has.
#[derive(Clone, Copy)]
struct Line {
    desk: Desk,
    length: usize,
}

// The run that goes on, and how many bytes of lines were put.
#[derive(Clone, Copy)]
pub struct Taken {
    pub run: Run,
    pub length: usize,
}

impl Desk {
    // The desk that goes on with a chain, and takes what comes next.
    fn after(self, chain: Chain) -> Desk
        ensures { result ≡ record { chain = chain; capacity = self.capacity; number = after self.number; more = true; reply = self.reply } }
    {
        Desk {
            chain,
            number: self.number.wrapping_add(1),
            more: true,
            ..self
        }
    }
}

// Ends a run with the line of a refusal.
fn refuse(desk: Desk, reply: u32, out: &mut [u8]) -> Line
    requires { longest ≤ length out.old }
    ensures value { result ≡ line_of (refused_at desk reply) }
    ensures out_after { out.new ≡ line_out (refused_at desk reply) out.old }
{
    let length = refusal_line(desk.number, reply, out).unwrap_or(0);
    Line {
        desk: Desk {
            more: false,
            reply,
            ..desk
        },
        length,
    }
}

// The same, where the step that came before was refused.
fn or_refuse(desk: Desk, put: Result<Line, Refusal>, out: &mut [u8]) -> Line
    requires { longest ≤ length out.old }
    ensures put { IfOk put (λ line. (result ≡ line) × (out.new ≡ out.old)) }
    ensures refused { IfErr put (λ e. (result ≡ line_of (refused_at desk (number e))) × (out.new ≡ line_out (refused_at desk (number e)) out.old)) }
{
    match put {
        Ok(line) => line,
        Err(refusal) => refuse(desk, refusal.number(), out),
    }
}

// As many silent samples as a channel can have.
fn silent() -> [f32; SAMPLES]
    ensures len { 480 ≡ length result }
    ensures value { result ≡ silence 480 }
{
    [0.0; SAMPLES]
}

// How many of them a frame of so many samples takes: no more than there are.
fn frame_length(samples: usize) -> usize
    ensures upper_bound { result ≤ 480 }
    ensures silence_value { take result (silence 480) ≡ silence samples }
{
    if samples <= SAMPLES { samples } else { SAMPLES }
}

// Has the chain take a silent frame of one channel with its figures.
fn step_silently(chain: Chain, figures: Figures, samples: usize) -> Result<Next, Refusal>
    ensures { told chain result ≡ (called chain figures (silence samples) 1 samples).told }
{
    let mut frame = silent();
    let n = frame_length(samples);
    chain.step(figures, &mut frame[..n], 1, samples)
}

// Puts the line of what the chain publishes after an accepted frame or gap.
fn publish(desk: Desk, chain: Chain, kind: Kind, out: &mut [u8]) -> Result<Line, Refusal>
    requires { longest ≤ length out.old }
    ensures { PutOrRefused (published desk chain (number_of kind)) desk result out.old out.new }
{
    let shown = chain.published()?;
    let length = record_line(desk.number, kind, shown, out)?;
    let desk = desk.after(chain);
    Ok(Line { desk, length })
}

// Takes a silent frame with its figures, and puts its line.
fn take_figures(desk: Desk, figures: Figures, out: &mut [u8]) -> Result<Line, Refusal>
    requires { longest ≤ length out.old }
    ensures { PutOrRefused (framed desk figures) desk result out.old out.new }
{
    let samples = desk.chain.samples()?;
    let next = step_silently(desk.chain, figures, samples)?;
    publish(desk, next.chain, Kind::Frame(next.answer), out)
}

// Marks a gap, and puts its line.
fn take_gap(desk: Desk, out: &mut [u8]) -> Result<Line, Refusal>
    requires { longest ≤ length out.old }
    ensures { PutOrRefused (gapped desk) desk result out.old out.new }
{
    let after = desk.chain.gap()?;
    publish(desk, after, Kind::Gap, out)
}

// Begins with a head: a new chain with its settings and the run's capacity, and no line.
fn begin(desk: Desk, head: Head) -> Result<Line, Refusal>
    ensures { (out : List ℕ) → PutOrRefused (begun desk head) desk result out out }
{
    let chain = Chain::new(head.settings, head.threshold, head.samples, desk.capacity)?;
    let desk = desk.after(chain);
    Ok(Line { desk, length: 0 })
}

// Puts the line of what the strip hands out, where there is one.
fn show(desk: Desk, got: Got, out: &mut [u8]) -> Line
    requires { longest ≤ length out.old }
    ensures value { result ≡ line_of (shown desk (handed got)) }
    ensures out_after { out.new ≡ line_out (shown desk (handed got)) out.old }
{
    match got {
        Got::More => Line { desk, length: 0 },
        Got::Head(head) => or_refuse(desk, begin(desk, head), out),
        Got::Record(figures) => {
            let put = take_figures(desk, figures, out);
            or_refuse(desk, put, out)
        }
        Got::Gap => {
            let put = take_gap(desk, out);
            or_refuse(desk, put, out)
        }
        Got::End => {
            let desk = Desk {
                more: false,
                ..desk
            };
            Line { desk, length: 0 }
        }
        Got::Refused(reply) => refuse(desk, reply, out),
    }
}

// The same while the run goes on; once it has ended nothing is printed.
fn tell(desk: Desk, got: Got, out: &mut [u8]) -> Line
    requires { longest ≤ length out.old }
    ensures value { result ≡ line_of (Printed.told desk (handed got)) }
    ensures out_after { out.new ≡ line_out (Printed.told desk (handed got)) out.old }
{
    if desk.more {
        show(desk, got, out)
    } else {
        Line { desk, length: 0 }
    }
}

// Takes the bytes of a block, one after the other. There is room for a line for each of them.
fn take_bytes(run: Run, block: &[u8], out: &mut [u8]) -> Taken
    requires { length block.now < length out.old / longest }
    ensures run { result.run ≡ run_of (ran Printed.told run.reader run.desk block.now) }
    ensures length { result.length ≡ length (ran Printed.told run.reader run.desk block.now).lines }
    ensures out_after { out.new ≡ (ran Printed.told run.reader run.desk block.now).lines ++ drop (length (ran Printed.told run.reader run.desk block.now).lines) out.old }
{
    let mut reader = run.reader;
    let mut desk = run.desk;
    let mut length = 0;
    for byte in block {
        let step = reader.take(*byte);
        let got = step.got;
        let line = tell(desk, got, &mut out[length..]);
        reader = step.reader;
        desk = line.desk;
        length += line.length;
    }
    let run = Run { reader, desk };
    Taken { run, length }
}

// Ends the run with the strip.
fn finish(run: Run, out: &mut [u8]) -> Taken
    requires { longest ≤ length out.old }
    ensures run { result.run ≡ stopped (run_of (ended Printed.told run.reader run.desk)) }
    ensures length { result.length ≡ length (ended Printed.told run.reader run.desk).lines }
    ensures out_after { out.new ≡ (ended Printed.told run.reader run.desk).lines ++ drop (length (ended Printed.told run.reader run.desk).lines) out.old }
{
    let got = run.reader.finish();
    let line = tell(run.desk, got, out);
    let last = Desk {
        more: false,
        ..line.desk
    };
    Taken {
        run: Run {
            reader: run.reader,
            desk: last,
        },
        length: line.length,
    }
}

// What is told at the end, where each read went well, each write did, and the close of the output: the number of the reply of a
// run that has ended. Where one of them failed, and of a run that goes on, nothing is told.
pub fn verdict_of(run: Run, read: bool, written: bool, closed: bool) -> Option<u32>
    ensures { result ≡ verdict_of run read written closed }
{
    let desk = run.desk;
    let over = read & written & closed & !desk.more;
    if over { Some(desk.reply) } else { None }
}

impl Run {
    // A run that has seen no byte of its strip, and whose chain's protector will remember so many peaks. A capacity that
    // is not from 1 to 16 is refused with 4 once the head is there.
    pub fn new(capacity: u32) -> Run
        ensures { result ≡ new capacity }
    {
        Run {
            reader: Reader::new(),
            desk: Desk {
                chain: Chain::none(),
                capacity,
                number: 0,
                more: true,
                reply: 0,
            },
        }
    }

    // Takes the next block of the strip, of any length, and puts the lines of what is whole with it to the start of a
    // lent buffer; an empty block is the strip's end. Where the buffer cannot hold LONGEST bytes for each byte of the
    // block and once more, it is refused with 8, and nothing changes.
    pub fn take(self, block: &[u8], out: &mut [u8]) -> Result<Taken, Refusal>
        ensures value { taken_told self result ≡ taken_of self block.now (length out.old) }
        ensures out_after { out.new ≡ out_of self block.now out.old }
    {
        if block.len() >= out.len() / LONGEST {
            return Err(Refusal::Room);
        }
        let last = block.is_empty();
        if last {
            Ok(finish(self, out))
        } else {
            Ok(take_bytes(self, block, out))
        }
    }
}
